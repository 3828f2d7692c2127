// The lines of words: a beat of 4 digits, and then words (RULES 11.2 and 11.3).
ghost use Rattle.std.specs.Prelude.{◌≡◌, true, not, ◌≤◌, eqb, length};
ghost use Rattle.rules.specs.Refusals.{given, number_in};
ghost use Rattle.rules.specs.RunFile.{frame_digits, beat_of, start_line_refusal, beat_line_refusal};
ghost use Rattle.rules.specs.Text.{well_formed, words_at};
ghost use Rattle.frames.specs.Headers.{said};

use crate::header::Header;
use digits::{number_of, well_formed, words};
use rules::Refusal;

// "Beats run from 0001 to fffe." (RULES 11.3)
const LAST_BEAT: u32 = 65534;

// "On every line, 10 comes first" (RULES 11.5).
fn frame_refusal(line: &[u8], words: usize, beat: u32) -> Result<(), Refusal>
    requires { words ≤ 2000 }
    ensures { number_in result ≡ given 10 (not (well_formed (frame_digits words) line.now))
        (given 11 (not (eqb (beat_of line.now) beat)) 0) }
{
    if !well_formed(line, 4 + 4 * words) {
        return Err(Refusal::Text);
    }
    if number_of(&line[..4]) != beat {
        return Err(Refusal::Beat);
    }
    Ok(())
}

// Fills a buffer with the words of a frame.
pub fn read_words(line: &[u8], buffer: &mut [u16])
    requires { well_formed (frame_digits (length buffer.old)) line.now ≡ true }
    ensures { buffer.new ≡ words_at line.now 4 (length buffer.old) }
{
    words::read_words(&line[4..], buffer);
}

// "Line 2 with a beat other than 0000 is 11." (RULES 11.5)
#[tactic(auto, unfolding(rules::specs::RunFile::start_line_refusal))]
pub fn start_line_refusal(header: Header, line: &[u8]) -> Result<(), Refusal>
    ensures { number_in result ≡ start_line_refusal (said header.rack) line.now }
{
    frame_refusal(line, header.start_words(), 0)
}

// 11 if the beat is not the next one, "and so is any well-formed line after beat fffe" (RULES 11.5).
#[tactic(auto, unfolding(rules::specs::RunFile::beat_line_refusal))]
pub fn beat_line_refusal(header: Header, beat: u16, line: &[u8]) -> Result<(), Refusal>
    ensures { number_in result ≡ beat_line_refusal (said header.rack) beat line.now }
{
    let next = u32::from(beat) + 1;
    frame_refusal(line, header.beat_words(), next)?;
    if LAST_BEAT < next {
        return Err(Refusal::Beat);
    }
    Ok(())
}
