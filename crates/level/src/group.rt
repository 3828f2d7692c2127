ghost use Rattle.std.specs.Prelude.{◌≡◌, ◌+◌, ◌<◌, ◌≤◌};
ghost use Rattle.rules.specs.Groups.{output_place};
ghost use Rattle.level.specs.Groups.{column_of, half_group, HalfAsks};

use columns::Column;

// A group of n cards in a table `recs` of records of w words: the cards from `first` on, and their words from `base` on.
// That it lies within the table is a clause and no invariant: `column` and `half` require less.
#[derive(Clone, Copy)]
pub struct Group<'a> {
    pub recs: &'a [u16],
    pub w: usize,
    pub first: usize,
    pub base: usize,
    pub n: usize,
    pub f: u32,
    pub c: u32,
}

impl<'a> Group<'a> {
    // The word j of the group's cards.
    pub fn column(self, j: usize) -> Column<'a>
        requires { self.base + j < self.w }
        ensures { result ≡ column_of self.entry j }
    {
        Column {
            recs: self.recs,
            w: self.w,
            first: self.first,
            n: self.n,
            at: self.base + j,
        }
    }

    // RULES 3. Half 0: "the first n/2" cards, "f0 = (f-1)/2", and the modulus c0; half 1: "the rest", "f1 = (f-1)/2, rounded up", and c1.
    pub fn half<const I: usize>(self, modulus: u16) -> Group<'a>
        requires { HalfAsks I self modulus }
        ensures { result ≡ half_group I self.entry }
    {
        let before = self.n / 2;
        let (first, n, f) = if I == 0 {
            (self.first, before, (self.f - 1) / 2)
        } else {
            (self.first + before, self.n - before, self.f / 2)
        };
        Group {
            first,
            base: self.base + 8,
            n,
            f,
            c: modulus as u32,
            ..self
        }
    }
}

// Where the output is in a group's words: in its one word, or in the seventh of its eight.
pub fn output_place(f: u32) -> usize
    ensures { (result ≡ output_place f) × (result ≤ 6) }
{
    if f == 0 { 0 } else { 6 }
}
