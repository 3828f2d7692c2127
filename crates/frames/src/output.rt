// The lines that are written. "Every output line ends with a line feed." (RULES 11.4)
ghost use Rattle.std.specs.Prelude.{◌≡◌, ◌<◌, ◌≤◌, length};
ghost use Rattle.std.proofs.lemmas.List.Edits.{sets};
ghost use Rattle.rules.specs.RunFile.{start_words, shown_word, output_line, refusal_line};
ghost use Rattle.frames.specs.Headers.{said};

use crate::header::Header;
use digits::put_number;
use digits::words::put_word;
use rack::broken::is_broken;
use rules::Vote;

const LINE_FEED: u8 = 10;

// The shown count of one card, "ffff for none and for a broken card" (RULES 11.4).
fn shown_word(header: Header, table: &[u16], v: u32) -> u16
    requires { (start_words (said header.rack) ≤ length table.now) × (v < header.rack.counter.n) }
    ensures { result ≡ shown_word (said header.rack) table.now v }
{
    let rack = header.rack;
    if is_broken(rack.set, v) {
        return u16::from(Vote::None);
    }
    let w = params::record_words(rack.counter.f) as usize;
    let from = v as usize * w;
    // It cannot be refused: the header passed its tests, and the words are a record.
    let shown = card::shown_count(rack.counter, &table[from..from + w]);
    u16::from(shown.unwrap_or(Vote::Count(0)))
}

// Writes the line of an accepted frame, the beat and the shown counts, into the caller's fixed buffer, and returns its length.
pub fn put_line(header: Header, beat: u16, table: &[u16], out: &mut [u8; 69]) -> usize
    requires { start_words (said header.rack) ≤ length table.now }
    ensures { (result ≡ length (output_line (said header.rack) beat table.now))
        × (out.new ≡ sets out.old 0 (output_line (said header.rack) beat table.now)) }
{
    put_word(&mut out[..4], beat);
    let n = header.rack.counter.n;
    for v in 0..n {
        let at = 4 + 4 * v as usize;
        put_word(&mut out[at..at + 4], shown_word(header, table, v));
    }
    let end = 4 + 4 * n as usize;
    out[end] = LINE_FEED;
    end + 1
}

// Writes the line of a refusal, for any number, and returns its length: "ffff, the number of the line (8 digits) and the refusal (2
// digits)" (RULES 11.5).
pub fn put_refusal(number: u32, refusal: u32, out: &mut [u8; 69]) -> usize
    ensures { (result ≡ length (refusal_line number refusal))
        × (out.new ≡ sets out.old 0 (refusal_line number refusal)) }
{
    put_word(&mut out[..4], u16::from(Vote::None));
    put_number(&mut out[4..12], number);
    put_number(&mut out[12..14], refusal);
    out[14] = LINE_FEED;
    15
}
