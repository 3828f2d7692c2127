// Line 1: "n (2 digits), f (2 digits), c (4 digits), the broken set (4 digits)" (RULES 11.1).
ghost use Rattle.std.specs.Prelude.{◌≡◌, ◌≤◌, true, IfOk};
ghost use Rattle.rules.specs.Refusals.{number_in};
ghost use Rattle.rules.specs.RunFile.{header_tests, header_digits, header_of, header_refusal, start_words, beat_words};
ghost use Rattle.rules.specs.Text.{well_formed};
ghost use Rattle.frames.specs.Headers.{said, kept};

use digits::{number_of, well_formed};
use params::Counter;
use rack::Rack;
use rack::broken::{broken_below, set_refused};
use rules::Refusal;

const HEADER_DIGITS: usize = 12;

// What line 1 says.
pub fn header_of(line: &[u8]) -> Rack
    requires { well_formed header_digits line.now ≡ true }
    ensures { result ≡ kept (header_of line.now) }
{
    Rack {
        counter: Counter {
            n: number_of(&line[..2]),
            f: number_of(&line[2..4]),
            c: number_of(&line[4..8]),
        },
        set: number_of(&line[8..12]),
    }
}

// Refusals 1, 2, 3 and 7.
pub fn header_tests(rack: Rack) -> Result<(), Refusal>
    ensures { number_in result ≡ header_tests (said rack) }
{
    let counter = rack.counter;
    params::counter_refusal(counter)?;
    if set_refused(counter.n, counter.f, rack.set) {
        return Err(Refusal::Set);
    }
    Ok(())
}

// "On every line, 10 comes first" (RULES 11.5).
#[tactic(auto, unfolding(rules::specs::RunFile::header_refusal))]
pub fn header_refusal(line: &[u8]) -> Result<(), Refusal>
    ensures { number_in result ≡ header_refusal line.now }
{
    if !well_formed(line, HEADER_DIGITS) {
        return Err(Refusal::Text);
    }
    header_tests(header_of(line))
}

// What line 1 says, where it is not refused.
#[derive(Clone, Copy)]
pub struct Header {
    pub rack: Rack,
    pub ghost passes: { header_tests (said rack) ≡ 0 },
}

impl Header {
    // The header of a rack that passes the tests of line 1, and the refusal of any other.
    pub fn of(rack: Rack) -> Result<Header, Refusal>
        ensures { (number_in result ≡ header_tests (said rack)) × IfOk result (λ header. header.rack ≡ rack) }
    {
        header_tests(rack)?;
        Ok(Header { rack })
    }

    // How many words line 2 has: n records.
    pub fn start_words(self) -> usize
        ensures { (result ≡ start_words (said self.rack)) × (result ≤ 400) }
    {
        let counter = self.rack.counter;
        (counter.n * params::record_words(counter.f)) as usize
    }

    // How many words a later line has: n·(broken)·W.
    pub fn beat_words(self) -> usize
        ensures { (result ≡ beat_words (said self.rack)) × (result ≤ 2000) }
    {
        let n = self.rack.counter.n;
        (n * broken_below(self.rack.set, n) * params::record_words(self.rack.counter.f)) as usize
    }
}
