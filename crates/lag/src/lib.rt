// The lag of two counts (RULES 8), with its refusals.
#![tactic(auto)]

ghost use Rattle.std.specs.Prelude.{◌≡◌, ◌<◌};
ghost use Rattle.rules.specs.Refusals.{lag_refusal, number_in};
ghost use Rattle.rules.specs.Lag.{ahead};
ghost use Rattle.rules.specs.Calls.{lag_answer};
ghost use Rattle.lag.specs.Counts.{Counts};

use rules::Refusal;

// How far one has to count on from y to get to x.
fn turn_ahead(c: u32, x: u32, y: u32) -> u32
    requires { Counts c x y }
    ensures { (result < c) × (result ≡ ahead c x y) }
{
    if y <= x { x - y } else { x + c - y }
}

// Refusals 3 and 9.
pub fn lag_refusal(c: u32, x: u32, y: u32) -> Result<(), Refusal>
    ensures { number_in result ≡ lag_refusal c x y }
{
    if params::modulus_refused(c) {
        return Err(Refusal::Modulus);
    }
    if c <= x || c <= y {
        return Err(Refusal::Lag);
    }
    Ok(())
}

// The lag of x against y, 0 if it is refused.
pub fn lag_of(c: u32, x: u32, y: u32) -> i32
    ensures { result ≡ lag_answer c x y }
{
    if lag_refusal(c, x, y).is_err() {
        return 0;
    }
    let d = turn_ahead(c, x, y);
    if 2 * d <= c {
        d as i32
    } else {
        -((c - d) as i32)
    }
}
