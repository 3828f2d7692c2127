// A whole beat over all cards (RULES 6).
#![tactic(auto)]

ghost use Rattle.std.specs.Prelude.{◌≡◌, ◌*◌, ◌<◌, length};
ghost use Rattle.std.proofs.lemmas.List.Edits.{sets};
ghost use Rattle.rules.specs.WholeBeat.{table_after};
ghost use Rattle.rules.specs.Refusals.{number_in, beat_refusal};
ghost use Rattle.rules.specs.Calls.{beat_out};
ghost use Rattle.rack.specs.Racks.{Accepted, size, SoundAsHeld, BrokenAsSent, Receives, record_of};

use params::Counter;
use rules::Refusal;

pub mod broken; // broken.rt: the broken set

// The words of the largest table: 16 records of 25.
const MOST_WORDS: usize = 400;

// What a beat is run on, besides the records. Line 1 of a run file says the same (RULES 11.1).
#[derive(Clone, Copy)]
pub struct Rack {
    pub counter: Counter,
    pub set: u32,
}

impl Rack {
    // Puts what the broken cards send to the receiver v in their records' places. It is sent "for each receiver in order, for
    // each broken card in order, W words" (RULES 6).
    fn hear(self, sent: &[u16], v: u32, heard: &mut [u16])
        requires { (Accepted self (length heard.old) (length sent.now) (length heard.old)) × (v < self.counter.n) }
        ensures { (SoundAsHeld self heard.old heard.new)
            × (BrokenAsSent self sent.now v self.counter.n heard.new) }
    {
        let n = self.counter.n;
        let w = params::record_words(self.counter.f) as usize;
        let count = broken::broken_below(self.set, n);
        let mut k = 0; // how many broken cards were met
        for u in 0..n {
            if broken::is_broken(self.set, u) {
                let at = (v * count + k) as usize * w;
                let place = u as usize * w;
                heard[place..place + w].copy_from_slice(&sent[at..at + w]);
                k += 1;
            }
        }
    }

    // Writes the record of the card v after the beat. "Broken cards' held records stay unchanged." (RULES 6)
    fn put_record(self, held: &[u16], sent: &[u16], v: u32, heard: &mut [u16], out: &mut [u16])
        requires { Receives self held.now sent.now heard.old out.old v }
        ensures { (out.new ≡ sets out.old (v * size self) (record_of self held.now sent.now v))
            × (SoundAsHeld self held.now heard.new) }
    {
        let w = params::record_words(self.counter.f) as usize;
        let at = v as usize * w;
        let record = &mut out[at..at + w];
        if broken::is_broken(self.set, v) {
            record.copy_from_slice(&held[at..at + w]);
        } else {
            self.hear(sent, v, heard);
            // It cannot be refused: the beat is not, and the lengths are right.
            let _ = card::step(self.counter, v, heard, record);
        }
    }

    // Writes the records of all cards after the beat. What a receiver hears starts as the records held.
    fn put_table(self, held: &[u16], sent: &[u16], heard: &mut [u16], out: &mut [u16])
        requires { (Accepted self (length held.now) (length sent.now) (length out.old)) × (length heard.old ≡ length held.now) }
        ensures { out.new ≡ table_after self.counter.n self.counter.f self.counter.c self.set held.now sent.now }
    {
        heard.copy_from_slice(held);
        for v in 0..self.counter.n {
            self.put_record(held, sent, v, heard, out);
        }
    }

    // Refusals 1, 2, 3, 7, 5, 8, 6.
    fn beat_refusal(self, held: usize, sent: usize, out: usize) -> Result<(), Refusal>
        ensures { number_in result ≡ beat_refusal self.counter.n self.counter.f self.counter.c self.set held sent out }
    {
        params::counter_refusal(self.counter)?;
        let Counter { n, f, .. } = self.counter;
        if broken::set_refused(n, f, self.set) {
            return Err(Refusal::Set);
        }
        let w = params::record_words(f);
        let table = (n * w) as usize;
        if held != table {
            return Err(Refusal::Records);
        }
        if sent != (n * broken::broken_below(self.set, n) * w) as usize {
            return Err(Refusal::Sent);
        }
        if out != table {
            return Err(Refusal::Output);
        }
        Ok(())
    }

    // The whole beat: the n records after it, from those held and the words that the broken cards send.
    pub fn beat(self, held: &[u16], sent: &[u16], out: &mut [u16]) -> Result<(), Refusal>
        ensures { (number_in result
            ≡ beat_refusal self.counter.n self.counter.f self.counter.c self.set (length held.now) (length sent.now) (length out.old))
            × (out.new ≡ beat_out self.counter.n self.counter.f self.counter.c self.set held.now sent.now out.old) }
    {
        self.beat_refusal(held.len(), sent.len(), out.len())?;
        let mut heard = [0u16; MOST_WORDS];
        self.put_table(held, sent, &mut heard[..held.len()], out);
        Ok(())
    }
}
