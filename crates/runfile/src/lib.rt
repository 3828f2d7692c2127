// A run, one line after the other (RULES 11). The n records are in the caller's table, from its start on.
#![tactic(auto)]

ghost use Rattle.std.specs.Prelude.{◌≡◌, true, ◌≤◌, length};
ghost use Rattle.std.proofs.lemmas.List.Edits.{sets};
ghost use Rattle.rules.specs.Text.{well_formed};
ghost use Rattle.rules.specs.RunFile.{frame_digits, beat_words, take_line, at_header, at_start};
ghost use Rattle.frames.specs.Headers.{said};
ghost use Rattle.runfile.specs.Runs.{Answers, stage_of, records_after, table_next, taken_line, Takes};

use frames::header::Header;
use frames::{frame, header, output};
use rack::Rack;
use rules::Refusal;

// Where a run stands between two lines: it waits for line 1, for line 2, or for the line after a beat.
#[derive(Clone, Copy)]
pub enum Stage {
    AtHeader,
    AtStart(Rack),
    AtBeat(Rack, u16),
}

// What a line that is accepted returns: the run after it, and how long its output line is.
#[derive(Clone, Copy)]
pub struct Taken {
    pub stage: Stage,
    pub written: usize,
}

// Line 1.
fn take_header(line: &[u8]) -> Result<Taken, Refusal>
    ensures { Answers Stage.AtHeader (take_line at_header line.now) result }
{
    header::header_refusal(line)?;
    Ok(Taken {
        stage: Stage::AtStart(header::header_of(line)),
        written: 0,
    })
}

// Line 2: "The beat 0000, then the n records that the cards start with." (RULES 11.2)
fn take_start(
    header: Header,
    line: &[u8],
    table: &mut [u16],
    out: &mut [u8; 69],
) -> Result<Taken, Refusal>
    requires { 400 ≤ length table.old }
    ensures { Takes (Stage.AtStart header.rack) (take_line (at_start (said header.rack)) line.now)
        table.old out.old result table.new out.new }
{
    frame::start_line_refusal(header, line)?;
    frame::read_words(line, &mut table[..header.start_words()]);
    Ok(Taken {
        stage: Stage::AtBeat(header.rack, 0),
        written: output::put_line(header, 0, table, out),
    })
}

// The records after a beat, in the place of those before it.
fn beat_records(header: Header, sent: &[u16], table: &mut [u16])
    requires { (400 ≤ length table.old) × (length sent.now ≡ beat_words (said header.rack)) }
    ensures { table.new ≡ sets table.old 0 (records_after (said header.rack) table.old sent.now) }
{
    let words = header.start_words();
    let held = &mut table[..words];
    // The largest table has 16·25 words.
    let mut room = [0; 400];
    let next = &mut room[..words];
    // It cannot be refused: the header passed its tests, and the lengths are right.
    let _ = header.rack.beat(held, sent, next);
    held.copy_from_slice(next);
}

// The same, with the words that the broken cards send on a line.
fn next_table(header: Header, line: &[u8], table: &mut [u16])
    requires { (400 ≤ length table.old) × (well_formed (frame_digits (beat_words (said header.rack))) line.now ≡ true) }
    ensures { table.new ≡ sets table.old 0 (table_next (said header.rack) table.old line.now) }
{
    // The longest line has 16·5·25 words.
    let mut room = [0; 2000];
    let sent = &mut room[..header.beat_words()];
    frame::read_words(line, sent);
    beat_records(header, sent, table);
}

// "Each later line has its beat (4 digits), then the broken cards' words for that beat." (RULES 11.3)
fn take_beat(
    header: Header,
    beat: u16,
    line: &[u8],
    table: &mut [u16],
    out: &mut [u8; 69],
) -> Result<Taken, Refusal>
    requires { 400 ≤ length table.old }
    ensures { Takes (Stage.AtBeat header.rack beat) (take_line (stage_of (Stage.AtBeat header.rack beat) table.old) line.now)
        table.old out.old result table.new out.new }
{
    frame::beat_line_refusal(header, beat, line)?;
    next_table(header, line, table);
    let next = beat + 1;
    Ok(Taken {
        stage: Stage::AtBeat(header.rack, next),
        written: output::put_line(header, next, table, out),
    })
}

// One line, with a table that is long enough for any rack: `take_line` is the same for an array. A run that no line 1 leads to is
// refused by the number of what it holds for line 1.
pub fn line_taken(
    stage: Stage,
    line: &[u8],
    table: &mut [u16],
    out: &mut [u8; 69],
) -> Result<Taken, Refusal>
    requires { 400 ≤ length table.old }
    ensures { Takes stage (taken_line (stage_of stage table.old) line.now)
        table.old out.old result table.new out.new }
{
    match stage {
        Stage::AtHeader => take_header(line),
        Stage::AtStart(rack) => take_start(Header::of(rack)?, line, table, out),
        Stage::AtBeat(rack, beat) => take_beat(Header::of(rack)?, beat, line, table, out),
    }
}

// Takes one line: it is accepted, and its output line is written, or it is refused, and nothing is written.
pub fn take_line(
    stage: Stage,
    line: &[u8],
    table: &mut [u16; 400],
    out: &mut [u8; 69],
) -> Result<Taken, Refusal>
    ensures { Takes stage (taken_line (stage_of stage table.old) line.now)
        table.old out.old result table.new out.new }
{
    line_taken(stage, line, table, out)
}
