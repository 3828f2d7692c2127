// A record as text and back (RULES 10.2), and the lines of a text (RULES 10.3).
#![tactic(auto)]

ghost use Rattle.std.specs.Prelude.{◌≡◌, ◌+◌, length};
ghost use Rattle.rules.specs.Text.{line_at, start_of};
ghost use Rattle.rules.specs.Refusals.{number_in, write_refusal, read_refusal, line_refusal};
ghost use Rattle.rules.specs.Calls.{write_out, read_out};

use digits::words;
use rules::Refusal;

pub mod lines; // lines.rt: where the lines of a text are

// Refusals 1, 2, 5 and 6.
fn write_refusal(n: u32, f: u32, words: usize, out: usize) -> Result<(), Refusal>
    ensures { number_in result ≡ write_refusal n f words out }
{
    params::shape_refusal(n, f)?;
    let size = params::record_words(f) as usize;
    if words != size {
        return Err(Refusal::Records);
    }
    if out != 4 * size {
        return Err(Refusal::Output);
    }
    Ok(())
}

// Refusals 1, 2, 6 and 10.
fn read_refusal(n: u32, f: u32, text: &[u8], out: usize) -> Result<(), Refusal>
    ensures { number_in result ≡ read_refusal n f text.now out }
{
    params::shape_refusal(n, f)?;
    let size = params::record_words(f) as usize;
    if out != size {
        return Err(Refusal::Output);
    }
    if !digits::well_formed(text, 4 * size) {
        return Err(Refusal::Text);
    }
    Ok(())
}

// Writes a record as text: "its W words and nothing else, kept as they are, in range or not" (RULES 10.2).
pub fn write_record(n: u32, f: u32, words: &[u16], out: &mut [u8]) -> Result<(), Refusal>
    ensures { (number_in result ≡ write_refusal n f (length words.now) (length out.old))
        × (out.new ≡ write_out n f words.now out.old) }
{
    write_refusal(n, f, words.len(), out.len())?;
    words::put_words(out, words);
    Ok(())
}

// Reads a text as a record.
pub fn read_record(n: u32, f: u32, text: &[u8], out: &mut [u16]) -> Result<(), Refusal>
    ensures { (number_in result ≡ read_refusal n f text.now (length out.old))
        × (out.new ≡ read_out n f text.now out.old) }
{
    read_refusal(n, f, text, out.len())?;
    words::read_words(text, out);
    Ok(())
}

// RULES 10.3: line k, "as a part of the caller's own text; if there is no such line, it is an empty part that begins where the text
// does." The contract says what the part holds and where it begins.
pub fn line(text: &[u8], k: u32) -> &[u8]
    ensures { (result.now ≡ line_at k text.now)
        × (result.ref_ptr ≡ (text.entry.ref_ptr.0, start_of k text.now + text.entry.ref_ptr.1)) }
{
    match lines::place_of(text, k) {
        Some(place) => &text[place],
        None => &text[..0],
    }
}

// "10 if there is no such line, otherwise 0" (RULES 10.3).
pub fn line_refusal(text: &[u8], k: u32) -> Result<(), Refusal>
    ensures { number_in result ≡ line_refusal k text.now }
{
    match lines::place_of(text, k) {
        Some(_) => Ok(()),
        None => Err(Refusal::Text),
    }
}
