//! The run program: standard input to standard output, a piece at a time, with fixed buffers. A failed read is the end of
//! the input, and a failed write the end of the output; either is reported on standard error, and so is a refused line.
#![tactic(auto)]

ghost use Rattle.std.specs.Prelude.{◌≤◌, length};
ghost use Rattle.feed.specs.Calls.{FeedsAll, Reached};

use feed::{Feed, Run};
use std::io::{Error, ErrorKind, Read};

// So much is read at a time: with less, a run would spend its time on calls.
const PIECE: usize = 65_536;

// The input and the output, and whether all of the output so far was written.
#[derive(Drop)]
struct Streams<'a> {
    rt: &'a HostRuntime,
    whole: bool,
}

impl Streams<'_> {
    // A report that cannot be written has nowhere else to go.
    fn report(&self, text: &[u8]) {
        let _ = self.rt.stderr().write_all(text);
    }

    // The launcher has to know a reader that went away from any other failure: it ends as the system ends other programs then.
    fn report_unwritten(&self, error: &Error) {
        self.report(b"blockrun: the output could not be written\n");
        if error.kind() == ErrorKind::BrokenPipe {
            self.report(b"blockrun: nobody reads the output\n");
        }
    }

    // Reads a piece, and returns how long it is: 0 if the input ends or the read failed.
    fn get(&self, piece: &mut [u8]) -> usize
        ensures { result ≤ length piece.new }
    {
        match self.rt.stdin().read(piece) {
            Ok(count) => count,
            Err(_) => {
                self.report(b"blockrun: the input could not be read\n");
                0
            }
        }
    }

    // Writes some output. After a line that could not be written nothing more is: another line after part of it would be read as
    // one line with wrong counts. A refusal is reported on standard error too, where the launcher looks for it.
    fn put(&mut self, text: &[u8]) {
        if !self.whole {
            return;
        }
        if is_refusal(text) {
            self.report(b"blockrun: refused ");
            self.report(text);
        }
        if let Err(error) = self.rt.stdout().write_all(text) {
            self.report_unwritten(&error);
            self.whole = false;
        }
    }
}

// Is this output line a refusal? It begins with ffff, and no other line does, since beats end at fffe.
fn is_refusal(text: &[u8]) -> bool {
    text.starts_with(b"ffff")
}

// Feeds a piece line by line, and writes each output line as it is known. All of the piece is fed, written or not, so that
// the contract says for every piece where the run stands after it. No index is counted: each call returns where to go on.
fn run_piece(run: &mut Run, piece: &[u8], streams: &mut Streams)
    ensures { FeedsAll run.old piece.now run.new }
{
    let mut at: usize = 0;
    while at < piece.len() {
        let mut out = [0u8; 69];
        let fed = run.feed_from(piece, at, &mut out);
        at = fed.next;
        streams.put(&out[..fed.written]);
    }
}

// Begins a run, and reads to the end of the input, to the first bad line, or to a line that could not be written. Nothing says
// that an input ends, so the rounds are counted, up to a number that no run uses up. The run is lent: one that is returned
// lies on the stack twice.
fn run_input(run: &mut Run, streams: &mut Streams)
    ensures { Reached run.new }
{
    *run = Run::new();
    let mut piece = [0u8; PIECE];
    for _ in 0..u64::MAX {
        let count = streams.get(&mut piece);
        if count == 0 {
            return;
        }
        run_piece(run, &piece[..count], streams);
        if !streams.whole || matches!(run.feed, Feed::Stopped) {
            return;
        }
    }
}

fn main(rt: HostRuntime) {
    let mut streams = Streams {
        rt: &rt,
        whole: true,
    };
    let mut run = Run::new();
    run_input(&mut run, &mut streams);
    let mut out = [0u8; 69];
    let written = run.finish(&mut out);
    streams.put(&out[..written]);
}
