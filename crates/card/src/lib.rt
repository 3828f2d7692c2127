// One card's step (RULES 5) and the count that it shows (RULES 7), with their refusals.
#![tactic(auto)]

ghost use Rattle.std.specs.Prelude.{◌≡◌, length, replicate};
ghost use Rattle.rules.specs.Refusals.{number_in, step_refusal, shown_refusal};
ghost use Rattle.rules.specs.Calls.{step_out};
ghost use Rattle.card.specs.Answers.{Shows};
ghost use Rattle.card.specs.Lengths.{refusal_in};

use level::group;
use level::group::Group;
use params::Counter;
use rules::{Refusal, Vote};

// Lengths in words, one to a word.
const WORDS: u8 = 1;

// Refusals 1, 2, 3, 4, 5, 6. The lengths are in words or in bytes: `units` of them make a word. No enum: any number of units will do.
pub fn step_refusal(
    counter: Counter,
    card: u32,
    units: u8,
    records: usize,
    out: usize,
) -> Result<(), Refusal>
    ensures { number_in result ≡ refusal_in units counter.n counter.f counter.c card records out }
{
    params::counter_refusal(counter)?;
    if counter.n <= card {
        return Err(Refusal::Card);
    }
    let w = params::record_words(counter.f);
    if records != (units as u32 * (counter.n * w)) as usize {
        return Err(Refusal::Records);
    }
    if out != (units as u32 * w) as usize {
        return Err(Refusal::Output);
    }
    Ok(())
}

// The card's next record, from the n records that it hears, into a buffer of zeros: for a step that is not refused.
pub fn put_next(counter: Counter, card: u32, records: &[u16], out: &mut [u16])
    requires { (step_refusal counter.n counter.f counter.c card (length records.now) (length out.old) ≡ 0)
        × (out.old ≡ replicate (length out.old) 0) }
    ensures { out.new ≡ step_out counter.n counter.f counter.c card records.now out.old }
{
    let whole = Group {
        recs: records,
        w: params::record_words(counter.f) as usize,
        first: 0,
        base: 0,
        n: counter.n as usize,
        f: counter.f,
        c: counter.c,
    };
    groups::step_group(whole, card as usize, out);
}

// One card's step.
pub fn step(counter: Counter, card: u32, records: &[u16], out: &mut [u16]) -> Result<(), Refusal>
    ensures { (number_in result ≡ step_refusal counter.n counter.f counter.c card (length records.now) (length out.old))
        × (out.new ≡ step_out counter.n counter.f counter.c card records.now out.old) }
{
    step_refusal(counter, card, WORDS, records.len(), out.len())?;
    out.fill(0);
    put_next(counter, card, records, out);
    Ok(())
}

// Refusals 1, 2, 3, 5.
fn shown_refusal(counter: Counter, words: usize) -> Result<(), Refusal>
    ensures { number_in result ≡ shown_refusal counter.n counter.f counter.c words }
{
    params::counter_refusal(counter)?;
    if words != params::record_words(counter.f) as usize {
        return Err(Refusal::Records);
    }
    Ok(())
}

// "The count that a card shows is the outermost a, or none." (RULES 7)
pub fn shown_count(counter: Counter, words: &[u16]) -> Result<Vote, Refusal>
    ensures { Shows counter.n counter.f counter.c words.now result }
{
    shown_refusal(counter, words.len())?;
    let at = group::output_place(counter.f);
    Ok(Vote::read(counter.c, words[at]))
}
