ghost use Rattle.std.specs.Prelude.{◌≡◌, ◌%◌, ◌<◌};
ghost use Rattle.rules.specs.Counting.{count_or0};
ghost use Rattle.rules.specs.OneBeat.{trusted, pointer, pointed, phase};
ghost use Rattle.steps.specs.Pointers.{TurnOf};

use rules::Vote;

// RULES 5.5: "di is Mi if wi is 0, else none"
#[tactic(auto, unfolding(rules::specs::OneBeat::trusted))]
pub fn trusted_vote(wait: u16, vote: Vote) -> Vote
    ensures { result ≡ trusted wait vote }
{
    if wait == 0 { vote } else { Vote::None }
}

// RULES 5.5: "The pointer pi is di divided by 3^i·t; it is none if di is none."; "If it follows the pointer p, its phase d is dp modulo
// t. If there is no pointer, or dp is none, d is 0."
#[tactic(auto, unfolding(rules::specs::OneBeat::pointer, rules::specs::OneBeat::pointed, rules::specs::Counting::count_or0))]
fn phase_by(part: u16, t: u16, d: Vote, d0: Vote, d1: Vote) -> u16
    requires { (0 < part) × (0 < t) }
    ensures { result ≡ count_or0 (pointed (pointer part d) d0 d1) % t }
{
    match d {
        Vote::Count(x) if x / part == 0 => d0.count_or_0() % t,
        Vote::Count(_) => d1.count_or_0() % t,
        Vote::None => 0,
    }
}

// RULES 5.5: "A card of half i follows pi, or the other half's pointer if pi is none." The half is the rules' index i, and so a number.
#[tactic(auto, unfolding(rules::specs::OneBeat::phase, rules::specs::OneBeat::pointer, rules::specs::Counting::or_else))]
pub fn phase_of(half: usize, f: u32, t: u16, d0: Vote, d1: Vote) -> u16
    requires { TurnOf f t }
    ensures { result ≡ phase half f d0 d1 }
{
    match (half, d0, d1) {
        (0, Vote::Count(_), _) => phase_by(t, t, d0, d0, d1),
        (0, Vote::None, _) => phase_by(3 * t, t, d1, d0, d1),
        (_, _, Vote::Count(_)) => phase_by(3 * t, t, d1, d0, d1),
        (_, _, Vote::None) => phase_by(t, t, d0, d0, d1),
    }
}
