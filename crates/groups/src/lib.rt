// A group's step, and that of the card's own half in it: from the outermost group inward.
#![tactic(auto)]

ghost use Rattle.std.specs.Prelude.{◌≡◌, ◌+◌, ◌≤◌, length};
ghost use Rattle.rules.specs.Parameters.{record_words};
ghost use Rattle.rules.specs.OneBeat.{leaf_next};
ghost use Rattle.level.specs.Groups.{Fits, heard_by, LevelAsks};
ghost use Rattle.groups.specs.Steps.{SplitAsks, GroupAsks, WritesGroup, WritesHalf};

use level::group::Group;
use params::Row;
use rules::Vote;

// RULES 5.1: "a becomes the first member's a plus 1, modulo c."
fn leaf_word(g: Group) -> u16
    requires { Fits g }
    ensures { result ≡ leaf_next g.entry.c (heard_by g.entry) }
{
    let word = g.column(0).said(0);
    let x = Vote::read(g.c, word).count_or_0();
    ((x as u32 + 1) % g.c) as u16
}

// A split group's next words, written from its base on.
#[cycle(step_group_step_half)]
fn step_split(g: Group, card: usize, out: &mut [u16])
    requires { SplitAsks g card (length out.old) }
    ensures { WritesGroup g.entry card out.old out.new }
{
    let row = params::row_of(g.f);
    level::next_level(g, card, row).put(&mut out[g.base..g.base + 8]);
    step_half(g, card, row, out);
}

// RULES 5.7: "The card's own half also steps, as a group, on the records of that half."
#[cycle(step_group_step_half)]
fn step_half(g: Group, card: usize, row: Row, out: &mut [u16])
    requires { (LevelAsks g card row) × (g.base + record_words g.f ≤ length out.old) }
    ensures { WritesHalf g.entry card out.old out.new }
{
    let before = g.n / 2;
    if card < before {
        step_group(g.half::<0>(row.c0), card, out);
    } else {
        step_group(g.half::<1>(row.c1), card - before, out);
    }
}

// A group's next words, written from its base on. Inline: a call of its own for a group with f = 0 costs the step instructions.
#[inline(always)]
#[cycle(step_group_step_half)]
pub fn step_group(g: Group, card: usize, out: &mut [u16])
    requires { GroupAsks g card (length out.old) }
    ensures { WritesGroup g.entry card out.old out.new }
{
    if g.f == 0 {
        out[g.base] = leaf_word(g);
    } else {
        step_split(g, card, out);
    }
}
