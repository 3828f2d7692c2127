#![tactic(auto)]

ghost use Rattle.std.specs.Prelude.{◌≡◌, ℕ, ◌<◌, ◌≤◌, Bool, ltb};
ghost use Rattle.rules.specs.Counting.{count_below};
ghost use Rattle.rules.specs.OneBeat.{enough, sent_by, most_frequent, vote, supported};
ghost use Rattle.columns.specs.Columns.{Within, MostFrequentAsks, VoteAsks, Computes, word_in, votes_in, leader};

use rules::Vote;

// The word `at` of each of n cards, from the card `first` on, in a table `recs` of records of w words.
// That it lies within the table is a clause and no invariant: `Group::column`, which makes columns, requires less.
#[derive(Clone, Copy)]
pub struct Column<'a> {
    pub recs: &'a [u16],
    pub w: usize,
    pub first: usize,
    pub n: usize,
    pub at: usize,
}

// As many as the largest modulus of a half, and more.
const TALLY: usize = 128;

// Which of two values leads, x that was sent t times or `best` that was sent `most` times: the more frequent, the smaller on
// a tie.
fn lead(best: usize, most: u8, x: usize, t: u8) -> usize
    ensures { result ≡ leader best most x t }
{
    // Not a `match` on `most.cmp(&t)`: its three-way answer costs nine instructions more for each card that counts.
    if most < t {
        x
    } else if t < most {
        best
    } else {
        best.min(x)
    }
}

impl Column<'_> {
    // The word of the column's card u.
    pub fn said(self, u: usize) -> u16
        requires { (Within self) × (u < self.n) }
        ensures { result ≡ word_in self.entry u }
    {
        let row = self.first + u;
        self.recs[row * self.w + self.at]
    }

    // Do more than `few` cards of the column say a word that passes the test?
    fn more_than<F: Fn(u16) -> bool>(self, few: usize, test: F) -> bool
        requires within { Within self }
        requires callable { F.IsAlwaysCallable test }
        ensures { (passes : ℕ → Bool) → Computes (F.post test) passes
            → result ≡ ltb few (count_below self.entry.n (λ (u : ℕ). passes (word_in self.entry u))) }
    {
        let mut many: usize = 0;
        for u in 0..self.n {
            if test(self.said(u)) {
                many += 1;
                if few < many {
                    return true;
                }
            }
        }
        false
    }

    // Did at least n-f cards of the column send y? A card that sent no count sent none.
    pub fn sent_enough(self, f: usize, m: u32, y: Vote) -> bool
        requires { Within self }
        ensures { result ≡ enough self.entry.n f (sent_by self.entry.n (votes_in m self.entry) y) }
    {
        match y {
            Vote::Count(x) if (x as u32) < m => !self.more_than(f, |word| word != x),
            Vote::Count(_) => self.n <= f,
            Vote::None => !self.more_than(f, |word| (word as u32) < m),
        }
    }

    // RULES 5.2: "the most frequent output among the cards of half i", with a tally that has room for the modulus.
    pub fn most_frequent(self, m: usize) -> u16
        requires { MostFrequentAsks self m }
        ensures { result ≡ most_frequent m self.entry.n (votes_in m self.entry) }
    {
        let mut tally = [0u8; TALLY];
        let mut best: usize = 0;
        for u in 0..self.n {
            let x = self.said(u) as usize;
            if x < m {
                tally[x] += 1;
                best = lead(best, tally[best], x, tally[x]);
            }
        }
        best as u16
    }

    // RULES 5.3: "the value of mi that at least n-f cards of the group sent, else none"
    pub fn vote_of(self, f: usize, m: usize) -> Vote
        requires { VoteAsks self f m }
        ensures { result ≡ vote self.entry.n f m (votes_in m self.entry) }
    {
        let enough = self.n - f;
        let mut tally = [0u8; TALLY];
        for u in 0..self.n {
            let word = self.said(u);
            let x = word as usize;
            if x < m {
                tally[x] += 1;
                if enough <= tally[x] as usize {
                    return Vote::Count(word);
                }
            }
        }
        Vote::None
    }

    // RULES 5.6: "the smallest count heard more than f times, or none if there is no such count"
    pub fn smallest_supported(self, f: usize, c: u32) -> Vote
        requires { (Within self) × (c ≤ 65535) }
        ensures { result ≡ supported self.entry.n f c (votes_in c self.entry) }
    {
        let mut best = c;
        for u in 0..self.n {
            let x = self.said(u);
            if (x as u32) < best && self.more_than(f, |word| word == x) {
                best = x as u32;
            }
        }
        if best < c {
            Vote::Count(best as u16)
        } else {
            Vote::None
        }
    }
}
