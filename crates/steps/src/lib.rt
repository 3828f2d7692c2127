#![tactic(auto)]

pub mod pointer; // pointer.rt: which beat of its turn a card follows

ghost use Rattle.std.specs.Prelude.{◌≡◌, ◌<◌, ◌≤◌};
ghost use Rattle.rules.specs.OneBeat.{step0, step1, step2, gained, three_steps};
ghost use Rattle.columns.specs.Columns.{Within, votes_in};
ghost use Rattle.steps.specs.Standings.{standing, StepAsks, ThreeStepsAsks};

use columns::Column;
use rules::Vote;

// The two words that the three steps change.
#[derive(Clone, Copy)]
pub struct Standing {
    pub a: Vote,
    pub b: bool,
}

impl Standing {
    // RULES 5.6: "Step 0. If fewer than n-f cards sent this card's a, a becomes none. b stays."
    #[tactic(auto, unfolding(rules::specs::OneBeat::step0))]
    fn step_0(self, col: Column, f: u32, c: u32) -> Standing
        requires { (Within col) × (f < 256) }
        ensures { standing result ≡ step0 col.entry.n f (votes_in c col.entry) (standing self) }
    {
        if col.sent_enough(f as usize, c, self.a) {
            self
        } else {
            Standing {
                a: Vote::None,
                ..self
            }
        }
    }

    // RULES 5.6: "Step 1. b becomes 1 if at least n-f cards sent this card's old a, else 0"; "a becomes the smallest count heard
    // more than f times, or none if there is no such count."
    #[tactic(auto, unfolding(rules::specs::OneBeat::step1))]
    fn step_1(self, col: Column, f: u32, c: u32) -> Standing
        requires { StepAsks col f c }
        ensures { standing result ≡ step1 col.entry.n f c (votes_in c col.entry) (standing self) }
    {
        // In this order: the other way, the step takes more instructions.
        let b = col.sent_enough(f as usize, c, self.a);
        let a = col.smallest_supported(f as usize, c);
        Standing { a, b }
    }

    // RULES 5.6: "If a is none or b is 0, a becomes the king's a, or 0 if the king has none."; "b becomes 1."
    #[tactic(auto, unfolding(rules::specs::OneBeat::step2, rules::specs::OneBeat::obeyed))]
    fn step_2(self, king: Vote) -> Standing
        ensures { standing result ≡ step2 king (standing self) }
    {
        match self.a {
            Vote::Count(_) if self.b => self,
            _ => Standing {
                a: Vote::Count(king.count_or_0()),
                b: true,
            },
        }
    }
}

// RULES 5.6: "d modulo 3 picks the step, and the king is card d/3 of the group."
#[tactic(auto, unfolding(rules::specs::OneBeat::three_steps))]
pub fn three_steps(col: Column, f: u32, c: u32, d: u16, s: Standing) -> Standing
    requires { ThreeStepsAsks col f c d }
    ensures { standing result ≡ three_steps col.entry.n f c (votes_in c col.entry) d (standing s) }
{
    match d % 3 {
        0 => s.step_0(col, f, c),
        1 => s.step_1(col, f, c),
        _ => {
            let king = Vote::read(c, col.said((d / 3) as usize));
            s.step_2(king)
        }
    }
}

// RULES 5.6: "After each step a count gains 1 modulo c; none stays none."
#[tactic(auto, unfolding(rules::specs::OneBeat::gained))]
pub fn gain(c: u32, a: Vote) -> Vote
    requires { (0 < c) × (c ≤ 65535) }
    ensures { result ≡ gained c a }
{
    match a {
        Vote::Count(x) => Vote::Count(((x as u32 + 1) % c) as u16),
        Vote::None => Vote::None,
    }
}
