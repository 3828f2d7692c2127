// A run file (RULES 11) in pieces, cut anywhere: the characters of an unfinished line are held in the run.
#![tactic(auto)]

ghost use Rattle.std.specs.Prelude.{◌≡◌, [], ◌+◌, ◌-◌, min, length, take, replicate};
ghost use Rattle.std.proofs.lemmas.List.Edits.{sets};
ghost use Rattle.runfile.specs.Runs.{stage_of};
ghost use Rattle.feed.specs.Feeds.{longest, ended};
ghost use Rattle.feed.specs.Calls.{line_number, missing, Holds, Ends, Feeds, Finishes};

use frames::output::put_refusal;
use rules::Refusal;
use runfile::{Stage, line_taken};
use text::lines::line_end;

// One more than the digits of the longest line, which has 4, and 4 for each of 16·5·25 words.
const LONGEST: usize = 8005;

// Where a run stands between two pieces: the stage, and how many characters are held of the unfinished line. After a refused line it is
// stopped: a state with its own name, so no `Option`. A call answers for any number of characters, also one beyond the line's buffer.
#[derive(Clone, Copy)]
pub enum Feed {
    Reading(Stage, usize),
    Stopped,
}

// A run, in fixed memory that the caller holds: where it stands, the unfinished line, and a table for the records of any rack.
#[derive(Drop)]
pub struct Run {
    pub feed: Feed,
    pub line: [u8; LONGEST],
    pub table: [u16; 400],
}

// What feeding a part of a piece returns: from which place of the piece to go on, and how long the text is that it writes to the
// caller's fixed buffer.
#[derive(Clone, Copy)]
pub struct Fed {
    pub next: usize,
    pub written: usize,
}

// What the end of a line leads to: where the run stands then, and how long the text is that it writes.
struct Ended {
    feed: Feed,
    written: usize,
}

// Adds a part of a piece to what is held of the line, as far as there is room, and returns how much is then held.
fn hold(line: &mut [u8; LONGEST], held: usize, part: &[u8]) -> usize
    ensures { Holds line.old held part.now result line.new }
{
    let start = held.min(LONGEST);
    let count = part.len().min(LONGEST - start);
    line[start..start + count].copy_from_slice(&part[..count]);
    start + count
}

// The number of the line that a run waits for. RULES 10.3: "Lines are counted from 1."
fn line_number(stage: Stage) -> u32
    ensures { result ≡ line_number stage }
{
    match stage {
        Stage::AtHeader => 1,
        Stage::AtStart(_) => 2,
        Stage::AtBeat(_, beat) => u32::from(beat) + 3,
    }
}

// The line is at its end: it is taken, or its refusal is written and the run stops (RULES 11.5).
fn end_line(stage: Stage, line: &[u8], table: &mut [u16; 400], out: &mut [u8; 69]) -> Ended
    ensures { Ends (ended (stage_of stage table.old) line.now []) table.old out.old result table.new out.new }
{
    match line_taken(stage, line, table, out) {
        Ok(taken) => Ended {
            feed: Feed::Reading(taken.stage, 0),
            written: taken.written,
        },
        Err(refusal) => Ended {
            feed: Feed::Stopped,
            written: put_refusal(line_number(stage), u32::from(refusal), out),
        },
    }
}

// RULES 11.5: "If line 1 or line 2 is missing, its number is given with 10."; RULES 11.3: "The file may end after line 2 or after any
// later line."
fn put_missing(stage: Stage, out: &mut [u8; 69]) -> usize
    ensures { (result ≡ length (missing stage)) × (out.new ≡ sets out.old 0 (missing stage)) }
{
    match stage {
        Stage::AtBeat(..) => 0,
        _ => put_refusal(line_number(stage), u32::from(Refusal::Text), out),
    }
}

impl Run {
    // Nothing is read yet.
    pub fn new() -> Run
        ensures { result ≡ record { feed = Feed.Reading Stage.AtHeader 0; line = replicate longest 0; table = replicate 400 0 } }
    {
        Run {
            feed: Feed::Reading(Stage::AtHeader, 0),
            line: [0; LONGEST],
            table: [0; 400],
        }
    }

    // Feeds a piece from a place on, up to and including the next line feed, or to its end. A line that ends there is taken.
    pub fn feed_from(&mut self, piece: &[u8], at: usize, out: &mut [u8; 69]) -> Fed
        ensures { Feeds self.old piece.now at out.old result self.new out.new }
    {
        let from = at.min(piece.len());
        let end = line_end(piece, from);
        let next = (end + 1).min(piece.len());
        let Feed::Reading(stage, held) = self.feed else {
            return Fed { next, written: 0 };
        };
        let count = hold(&mut self.line, held, &piece[from..end]);
        if end == piece.len() {
            self.feed = Feed::Reading(stage, count);
            return Fed { next, written: 0 };
        }
        let Ended { feed, written } = end_line(stage, &self.line[..count], &mut self.table, out);
        self.feed = feed;
        Fed { next, written }
    }

    // Writes what is left to write when the input ends, and returns how long it is. RULES 10.3: "the last line may lack" its line feed.
    pub fn finish(&mut self, out: &mut [u8; 69]) -> usize
        ensures { Finishes self.old out.old result self.new out.new }
    {
        let Feed::Reading(stage, held) = self.feed else {
            return 0;
        };
        let line = &self.line[..held.min(LONGEST)];
        if line.is_empty() {
            return put_missing(stage, out);
        }
        let Ended { feed, written } = end_line(stage, line, &mut self.table, out);
        match feed {
            Feed::Stopped => written,
            Feed::Reading(next, _) => written + put_missing(next, out),
        }
    }
}
