// Words, one after the other. "A word is 4 digits." (RULES 10.2) By places: over chunks zipped with words the proofs do not close.
ghost use Rattle.std.specs.Prelude.{◌≡◌, true, ◌*◌, length};
ghost use Rattle.rules.specs.Text.{hex_of, text_of, well_formed, words_at};

use super::{number_of, put_number};

// Fills four characters with a word.
pub fn put_word(out: &mut [u8], word: u16)
    requires { length out.old ≡ 4 }
    ensures { out.new ≡ hex_of 4 word }
{
    put_number(out, u32::from(word));
}

// Reads as many words as the buffer holds.
pub fn read_words(text: &[u8], out: &mut [u16])
    requires { well_formed (4 * length out.old) text.now ≡ true }
    ensures { out.new ≡ words_at text.now 0 (length out.old) }
{
    for (i, word) in out.iter_mut().enumerate() {
        *word = number_of(&text[4 * i..4 * i + 4]) as u16;
    }
}

// Fills a buffer with the text of some words.
pub fn put_words(out: &mut [u8], words: &[u16])
    requires { length out.old ≡ 4 * length words.now }
    ensures { out.new ≡ text_of words.now }
{
    for (i, &word) in words.iter().enumerate() {
        put_word(&mut out[4 * i..4 * i + 4], word);
    }
}
