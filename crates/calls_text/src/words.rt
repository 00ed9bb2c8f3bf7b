ghost use Rattle.std.specs.Prelude.{◌≡◌};
ghost use Rattle.calls_text.specs.Words.{word, word_count, number_at, is_passed_over};

use text::cut::{piece, piece_count};
use text::number::long_number;

// Is the line passed over? An empty line is, and one that begins with `#`.
pub(crate) fn is_passed_over(line: &[u8]) -> bool
    ensures { result ≡ is_passed_over line.now }
{
    matches!(line, [] | [b'#', ..])
}

// A word of a line, from 0: one blank parts two words. Empty where there is none. The definitions name the words of a line by
// number, and so does the code: each is asked for but once, and a list of them would want memory for each line.
pub(crate) fn word(line: &[u8], index: usize) -> &[u8]
    ensures { result.now ≡ word index line.now }
{
    piece(line, b' ', index)
}

// How many words a line has.
pub(crate) fn word_count(line: &[u8]) -> usize
    ensures { result ≡ word_count line.now }
{
    piece_count(line, b' ')
}

// The number that a word of a line writes, if it is one.
pub(crate) fn number_at(line: &[u8], index: usize) -> Option<u64>
    ensures { result ≡ number_at index line.now }
{
    long_number(word(line, index))
}
