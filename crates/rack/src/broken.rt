// The broken set: bit v for card v.
ghost use Rattle.std.specs.Prelude.{◌≡◌, ◌≤◌, ◌<◌};
ghost use Rattle.rules.specs.Parameters.{most_cards};
ghost use Rattle.rules.specs.WholeBeat.{is_broken, broken_below, bad_set};

// Is the card v broken?
pub fn is_broken(set: u32, v: u32) -> bool
    requires { v < most_cards }
    ensures { result ≡ is_broken set v }
{
    (set >> v) % 2 == 1
}

// How many broken cards there are below v.
pub fn broken_below(set: u32, v: u32) -> u32
    requires { v ≤ most_cards }
    ensures { result ≡ broken_below set v }
{
    // `filter` and `count` take five times as long.
    let mut count = 0;
    for u in 0..v {
        if is_broken(set, u) {
            count += 1;
        }
    }
    count
}

// The test for refusal 7: "the broken set names a card at or above n, or more than f cards" (RULES 9.1).
pub fn set_refused(n: u32, f: u32, set: u32) -> bool
    requires { n ≤ most_cards }
    ensures { result ≡ bad_set n f set }
{
    set >> n != 0 || f < broken_below(set, n)
}
