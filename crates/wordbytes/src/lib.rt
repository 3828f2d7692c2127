// Words as bytes: "a word is two bytes, the low byte first" (RULES 10.1).
#![tactic(auto)]

ghost use Rattle.std.specs.Prelude.{◌≡◌, ◌*◌, length};
ghost use Rattle.rules.specs.Bytes.{word_at, bytes_of};
ghost use Rattle.rules.specs.Counting.{tabulate};

// Reads the words of some bytes.
pub fn decode(bytes: &[u8], words: &mut [u16])
    requires { length bytes.now ≡ 2 * length words.old }
    ensures { words.new ≡ tabulate (length words.old) (word_at bytes.now) }
{
    // By index: of what is written through a zipped `iter_mut`, a proof knows the length alone.
    for (i, word) in words.iter_mut().enumerate() {
        *word = u16::from_le_bytes([bytes[2 * i], bytes[2 * i + 1]]);
    }
}

// Writes some words as bytes.
pub fn encode(words: &[u16], bytes: &mut [u8])
    requires { length bytes.old ≡ 2 * length words.now }
    ensures { bytes.new ≡ bytes_of words.now }
{
    // By index: of what is written through `chunks_exact_mut`, a proof knows the length alone.
    for (i, word) in words.iter().enumerate() {
        bytes[2 * i..2 * i + 2].copy_from_slice(&word.to_le_bytes());
    }
}
