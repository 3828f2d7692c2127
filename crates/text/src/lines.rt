// Where the lines of a text are. "Each line is ended by a line feed, which is not part of the line; the last line may lack
// it." (RULES 10.3)
ghost use Rattle.std.specs.Prelude.{◌≡◌};
ghost use Rattle.text.specs.Lines.{end_from, Placed};

use std::ops::Range;

const LINE_FEED: u8 = 10;

// The line that begins at a place ends at the next line feed, or with the text. The next line begins one further on.
pub fn line_end(text: &[u8], start: usize) -> usize
    ensures { result ≡ end_from text.now start }
{
    let rest = text.get(start..).unwrap_or(&[]);
    let feed = rest.iter().position(|&ch| ch == LINE_FEED);
    start + feed.unwrap_or(rest.len())
}

// Line k, in one pass. "What follows the last line feed is a line only if it has a character." (RULES 10.3)
pub(crate) fn place_of(text: &[u8], k: u32) -> Option<Range<usize>>
    ensures { Placed k text.now result }
{
    let mut start = 0;
    for number in 1..=k {
        if text.len() <= start {
            return None;
        }
        let end = line_end(text, start);
        if number == k {
            return Some(start..end);
        }
        start = end + 1;
    }
    None
}
