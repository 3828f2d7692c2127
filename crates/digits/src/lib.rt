// Hexadecimal digits, and the numbers that they make: "lower case, the high digit first" (RULES 10.2).
#![tactic(auto)]

ghost use Rattle.std.specs.Prelude.{◌≡◌, true, ◌%◌, ◌<◌, ◌≤◌, length};
ghost use Rattle.rules.specs.Text.{digit_of, is_digit, value_of, hex_of, number_at, all_digits, well_formed};

pub mod words; // words.rt: words of four digits

// A digit's value is its distance from '0', or from ten before 'a'.
const DECIMAL: u8 = b'0';

const LETTER: u8 = b'a' - 10;

// Two tests: with one pattern for both ranges, the run program takes more instructions.
#[tactic(auto, unfolding(rules::specs::Text::is_digit))]
fn is_digit(ch: u8) -> bool
    ensures { result ≡ is_digit ch }
{
    ch.is_ascii_digit() || matches!(ch, b'a'..=b'f')
}

// The value of a digit. The ways of std take a `char` and may answer none, which is no plainer.
#[tactic(auto, using(crate::proofs::Hexadecimal::digit_cases), unfolding(rules::specs::Text::value_of))]
fn value_of(ch: u8) -> u32
    requires { is_digit ch ≡ true }
    ensures { result ≡ value_of ch }
{
    if ch <= b'9' {
        u32::from(ch - DECIMAL)
    } else {
        u32::from(ch - LETTER)
    }
}

// The digit of a value.
#[tactic(auto, unfolding(rules::specs::Text::digit_of))]
fn digit_of(x: u8) -> u8
    requires { x < 16 }
    ensures { result ≡ digit_of x }
{
    if x < 10 { DECIMAL + x } else { LETTER + x }
}

fn last_digit(x: u32) -> u8
    ensures { result ≡ digit_of (x % 16) }
{
    digit_of((x % 16) as u8)
}

// Not refused by 10: as many characters as are wanted, and all of them digits.
pub fn well_formed(text: &[u8], size: usize) -> bool
    ensures { result ≡ well_formed size text.now }
{
    text.len() == size && text.iter().all(|&ch| is_digit(ch))
}

// The number that some digits make.
pub fn number_of(digits: &[u8]) -> u32
    requires digits_alone { all_digits digits.now ≡ true }
    requires fits { length digits.now ≤ 8 }
    ensures { result ≡ number_at digits.now 0 (length digits.now) }
{
    let mut number: u32 = 0;
    for &ch in digits {
        number = 16 * number + value_of(ch);
    }
    number
}

// Fills a buffer with a number's digits, from the last one on. By places: after `iter_mut().rev()` the proof does not close.
pub fn put_number(out: &mut [u8], number: u32)
    ensures { out.new ≡ hex_of (length out.old) number }
{
    let mut rest = number;
    for place in (0..out.len()).rev() {
        out[place] = last_digit(rest);
        rest /= 16;
    }
}
