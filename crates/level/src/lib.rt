#![tactic(auto)]

pub mod group;

ghost use Rattle.std.specs.Prelude.{◌≡◌, ℕ, ◌<◌, ◌≤◌, length};
ghost use Rattle.rules.specs.Groups.{at_half, half_of, output_of};
ghost use Rattle.rules.specs.OneBeat.{most_frequent, cooldown, trusted, phase, next_vote, next_standing};
ghost use Rattle.steps.specs.Standings.{standing};
ghost use Rattle.steps.specs.Pointers.{TurnOf};
ghost use Rattle.level.specs.Groups.{Fits, heard_by, WordAsks, LevelAsks, NextVoteAsks};
ghost use Rattle.level.specs.Levels.{level_read, level_after, voted, words_of};

use group::Group;
use params::Row;
use rules::Vote;
use steps::{Standing, pointer};

// What a card keeps of a split group, as RULES 4.2 reads its words. The fields are the eight words of RULES 4.1, in their order.
#[derive(Clone, Copy)]
pub struct Level {
    pub m0: u16,
    pub m1: u16,
    pub vote0: Vote,
    pub vote1: Vote,
    pub wait0: u16,
    pub wait1: u16,
    pub a: Vote,
    pub b: bool,
}

// RULES 5.4: "then wi becomes 1 less, but not below 0. Otherwise wi becomes 2·c1."
#[tactic(auto, unfolding(rules::specs::OneBeat::cooldown, rules::specs::OneBeat::follows))]
fn wait_after(old: Vote, new: Vote, m: u16, wait: u16, restart: u16) -> u16
    requires { 0 < m }
    ensures { result ≡ cooldown m restart old new wait }
{
    match (old, new) {
        (Vote::Count(x), Vote::Count(y)) if y as u32 == (x as u32 + 1) % m as u32 =>
            wait.saturating_sub(1),
        _ => restart,
    }
}

impl Level {
    // The level that a card of the group keeps, from its eight words.
    fn read(g: Group, card: usize, row: Row) -> Level
        requires { LevelAsks g card row }
        ensures { result ≡ level_read g.entry.f g.entry.c (heard_by g.entry card) }
    {
        Level {
            m0: g.word_at(card, 0),
            m1: g.word_at(card, 1),
            vote0: Vote::read(row.c0 as u32, g.word_at(card, 2)),
            vote1: Vote::read(row.c1 as u32, g.word_at(card, 3)),
            wait0: g.word_at(card, 4).min(row.restart),
            wait1: g.word_at(card, 5).min(row.restart),
            a: Vote::read(g.c, g.word_at(card, 6)),
            b: g.word_at(card, 7) == 1,
        }
    }

    // Half I has voted: its M is new, and its w depends on the old M and the new one.
    fn voted<const I: usize>(self, new: Vote, row: Row) -> Level
        requires { 0 < at_half I row.c0 row.c1 }
        ensures { result ≡ voted I self new (at_half I row.c0 row.c1) row.restart }
    {
        if I == 0 {
            let wait0 = wait_after(self.vote0, new, row.c0, self.wait0, row.restart);
            Level {
                vote0: new,
                wait0,
                ..self
            }
        } else {
            let wait1 = wait_after(self.vote1, new, row.c1, self.wait1, row.restart);
            Level {
                vote1: new,
                wait1,
                ..self
            }
        }
    }

    // d, for a card of the group that keeps this level.
    fn phase(self, g: Group, card: usize, row: Row) -> u16
        requires { TurnOf g.f row.turn }
        ensures { result ≡ phase (half_of g.entry.n card) g.entry.f
            (trusted self.wait0 self.vote0) (trusted self.wait1 self.vote1) }
    {
        let d0 = pointer::trusted_vote(self.wait0, self.vote0);
        let d1 = pointer::trusted_vote(self.wait1, self.vote1);
        let half = if card < g.n / 2 { 0 } else { 1 };
        pointer::phase_of(half, g.f, row.turn, d0, d1)
    }

    // a and b, by the step that the old M and w pick.
    fn next_standing(self, g: Group, card: usize, row: Row) -> Standing
        requires { (LevelAsks g card row)
            × (self ≡ level_read g.f g.c (heard_by g card)) }
        ensures { standing result ≡ next_standing g.entry.n g.entry.f g.entry.c (heard_by g.entry) card }
    {
        let d = self.phase(g, card, row);
        let old = Standing {
            a: self.a,
            b: self.b,
        };
        let s = steps::three_steps(g.column(6), g.f, g.c, d, old);
        Standing {
            a: steps::gain(g.c, s.a),
            ..s
        }
    }

    // The level's eight words. One by one: copied from an array they cost the step more.
    pub fn put(self, out: &mut [u16])
        requires { length out.old ≡ 8 }
        ensures { out.new ≡ words_of self }
    {
        out[0] = self.m0;
        out[1] = self.m1;
        out[2] = u16::from(self.vote0);
        out[3] = u16::from(self.vote1);
        out[4] = self.wait0;
        out[5] = self.wait1;
        out[6] = u16::from(self.a);
        out[7] = u16::from(self.b);
    }
}

impl Group<'_> {
    // The word j of a card of the group.
    fn word_at(self, card: usize, j: usize) -> u16
        requires { WordAsks self card j }
        ensures { result ≡ heard_by self.entry card j }
    {
        self.column(j).said(card)
    }

    // mi, for the half i that this group is. RULES 5.2: "the most frequent output among the cards of half i"
    fn common_output(self) -> u16
        requires { (Fits self) × (self.c ≤ 128) }
        ensures { result ≡ most_frequent self.entry.c self.entry.n
            (λ (u : ℕ). output_of self.entry.f self.entry.c (heard_by self.entry u)) }
    {
        self.column(group::output_place(self.f))
            .most_frequent(self.c as usize)
    }

    // Mi, by the m that the cards sent.
    fn next_vote<const I: usize>(self, m: u16) -> Vote
        requires { NextVoteAsks I self m }
        ensures { result ≡ next_vote I self.entry.n self.entry.f (heard_by self.entry) }
    {
        self.column(I).vote_of(self.f as usize, m as usize)
    }
}

// The level after the beat: everything on the right is from before it.
pub fn next_level(g: Group, card: usize, row: Row) -> Level
    requires { LevelAsks g card row }
    ensures { result ≡ level_after g.entry.n g.entry.f g.entry.c (heard_by g.entry) card }
{
    let own = Level::read(g, card, row);
    let vote0 = g.next_vote::<0>(row.c0);
    let vote1 = g.next_vote::<1>(row.c1);
    let voted = own.voted::<0>(vote0, row).voted::<1>(vote1, row);
    let stand = own.next_standing(g, card, row);
    Level {
        m0: g.half::<0>(row.c0).common_output(),
        m1: g.half::<1>(row.c1).common_output(),
        a: stand.a,
        b: stand.b,
        ..voted
    }
}
