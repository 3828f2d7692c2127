// What C and Rust reach: one card's step and the lag, on numbers and bytes. "From C and Rust a word is two bytes, the low byte
// first." (RULES 10.1)
#![tactic(auto)]

ghost use Rattle.std.specs.Prelude.{◌≡◌, ◌*◌, ◌≤◌, length};
ghost use Rattle.rules.specs.Refusals.{step_bytes_refusal, lag_refusal};
ghost use Rattle.rules.specs.Calls.{step_bytes_out, lag_answer};

use params::Counter;
use rules::Refusal;

// Lengths in bytes, two to a word: "An odd number of bytes is a wrong length." (RULES 10.1)
const BYTES: u8 = 2;

// W of the largest f, and n·W of the largest n.
const MOST_RECORD: usize = 25;

const MOST_TABLE: usize = 400;

// n·W of 7 cards with f = 1, and one more.
const FEW_WORDS: usize = 64;

// A step that is not refused, of a rack whose table has TABLE words at most: clearing the largest buffer would cost a small
// rack 7 % more.
fn step_within<const TABLE: usize>(counter: Counter, card: u32, records: &[u8], out: &mut [u8])
    requires accepted { step_bytes_refusal counter.n counter.f counter.c card (length records.now) (length out.old) ≡ 0 }
    requires small { TABLE ≤ 400 }
    requires fits { length records.now ≤ 2 * TABLE }
    ensures { out.new ≡ step_bytes_out counter.n counter.f counter.c card records.now out.old }
{
    let mut heard = [0u16; TABLE];
    let heard = &mut heard[..records.len() / 2];
    let mut next = [0u16; MOST_RECORD];
    let next = &mut next[..out.len() / 2];
    wordbytes::decode(records, heard);
    card::put_next(counter, card, heard, next);
    wordbytes::encode(next, out);
}

// One card's step: the card's next record, from the n records that it hears. C gets a refusal by its number.
#[unsafe(no_mangle)]
pub extern "C" fn tsendurkho_step(
    n: u32,
    f: u32,
    c: u32,
    card: u32,
    records: &[u8],
    out: &mut [u8],
) -> u32
    ensures { (result ≡ step_bytes_refusal n f c card (length records.now) (length out.old))
        × (out.new ≡ step_bytes_out n f c card records.now out.old) }
{
    let counter = Counter { n, f, c };
    if let Err(refusal) = card::step_refusal(counter, card, BYTES, records.len(), out.len()) {
        return refusal.into();
    }
    if records.len() <= 2 * FEW_WORDS {
        step_within::<FEW_WORDS>(counter, card, records, out);
    } else {
        step_within::<MOST_TABLE>(counter, card, records, out);
    }
    0
}

// The refusal of a lag, by its number.
#[unsafe(no_mangle)]
pub extern "C" fn tsendurkho_lag_refusal(c: u32, x: u32, y: u32) -> u32
    ensures { result ≡ lag_refusal c x y }
{
    match lag::lag_refusal(c, x, y) {
        Ok(()) => 0,
        Err(refusal) => refusal.into(),
    }
}

// The lag of x against y, 0 if it is refused.
#[unsafe(no_mangle)]
pub extern "C" fn tsendurkho_lag(c: u32, x: u32, y: u32) -> i32
    ensures { result ≡ lag_answer c x y }
{
    lag::lag_of(c, x, y)
}
