// What n, f and c may be, and what follows from them (RULES 2), with refusals 1, 2 and 3.
#![tactic(auto)]

ghost use Rattle.std.specs.Prelude.{◌≡◌, ◌≤◌};
ghost use Rattle.rules.specs.Parameters.{bad_modulus, most_broken, record_words};
ghost use Rattle.rules.specs.Refusals.{shape_refusal, counter_refusal, number_in, value_in};
ghost use Rattle.rules.specs.Calls.{no_row, params_answer};
ghost use Rattle.params.specs.Answers.{row_from, row_read};

use rules::Refusal;

const MOST_CARDS: u32 = 16;

const MOST_BROKEN: u32 = 5;

const MOST_MODULUS: u32 = 65535;

// The fixed table that the cards carry: t, c0, c1, 2·c1, W and T(f), a row for each f.
const TABLE: [[u16; 6]; 6] = [
    [0, 0, 0, 0, 1, 1],
    [9, 18, 54, 108, 9, 192],
    [12, 24, 72, 144, 17, 446],
    [15, 30, 90, 180, 17, 509],
    [18, 36, 108, 216, 25, 826],
    [21, 42, 126, 252, 25, 889],
];

// A row of the table.
#[derive(Clone, Copy)]
pub struct Row {
    pub turn: u16,
    pub c0: u16,
    pub c1: u16,
    pub restart: u16,
    pub words: u16,
    pub beats: u16,
}

// What a counter is made for: n cards, of which f may be broken, that count modulo c. Where c plays no part, n and f come as two
// numbers: a second struct would be no plainer.
#[derive(Clone, Copy)]
pub struct Counter {
    pub n: u32,
    pub f: u32,
    pub c: u32,
}

// Refusals 1 and 2.
pub fn shape_refusal(n: u32, f: u32) -> Result<(), Refusal>
    ensures { number_in result ≡ shape_refusal n f 0 }
{
    if n == 0 || MOST_CARDS < n {
        return Err(Refusal::Cards);
    }
    if MOST_BROKEN < f || n <= 3 * f {
        return Err(Refusal::Broken);
    }
    Ok(())
}

// The test for refusal 3.
pub fn modulus_refused(c: u32) -> bool
    ensures { result ≡ bad_modulus c }
{
    c < 2 || MOST_MODULUS < c
}

// Refusals 1, 2 and 3.
pub fn counter_refusal(counter: Counter) -> Result<(), Refusal>
    ensures { number_in result ≡ counter_refusal counter.n counter.f counter.c 0 }
{
    shape_refusal(counter.n, counter.f)?;
    if modulus_refused(counter.c) {
        return Err(Refusal::Modulus);
    }
    Ok(())
}

// W, from the leading zeros of f.
pub fn record_words(f: u32) -> u32
    ensures { result ≡ record_words f }
{
    8 * (32 - u32::leading_zeros(f)) + 1
}

// The row of an allowed f.
pub fn row_of(f: u32) -> Row
    requires { f ≤ most_broken }
    ensures { result ≡ row_read f }
{
    let [turn, c0, c1, restart, words, beats] = TABLE[f as usize];
    Row {
        turn,
        c0,
        c1,
        restart,
        words,
        beats,
    }
}

// The parameters of n and f.
pub fn parameters_of(n: u32, f: u32) -> Result<Row, Refusal>
    ensures { (number_in result ≡ shape_refusal n f 0) × (value_in (row_from no_row) result ≡ row_from (params_answer n f)) }
{
    shape_refusal(n, f)?;
    Ok(row_of(f))
}
