ghost use Rattle.std.specs.Prelude.{◌≡◌, ◌≤◌, true};
ghost use Rattle.text.specs.Fields.{numeral, amount, longest, number_read, long_number_read, leading_number_read};

use crate::fault::FieldFault;
use crate::lawful::check_lawful;

// The number that field `index` of a line writes: 0, or one to seven digits that do not start with 0. A field and its
// index are no struct: what is cut is bytes, of which words and names are read without a number, so a struct would be taken
// apart there.
pub fn number(field: &[u8], index: usize) -> Result<u32, FieldFault>
    ensures { result ≡ number_read field.now index }
{
    check_lawful(field, index, number_length(field, 7)).map_err(FieldFault::Number)?;
    // Seven digits fit.
    Ok(amount(field) as u32)
}

// The number that a word writes, if it does: 0, or one to ten digits that do not start with 0. No place is told where it
// does not. One function for this and for a number of seven digits would be generic over the type that the digits are read
// into, and over what tells that they are none.
pub fn long_number(word: &[u8]) -> Option<u64>
    ensures { result ≡ long_number_read word.now }
{
    check_lawful(word, 0, number_length(word, 10)).ok()?;
    Some(amount(word))
}

// The number of at most ten digits that a text begins with, as far as it goes, and its length; none where it begins with none.
pub fn leading_number(text: &[u8]) -> Option<(u64, usize)>
    ensures { result ≡ leading_number_read text.now }
{
    let front = &text[..number_length(text, 10)];
    if front.is_empty() {
        return None;
    }
    Some((amount(front), front.len()))
}

// The number that at most ten digits write. It is a loop over them: the library's `parse` takes a `str`, and so would read the
// bytes once more to see that they are text.
fn amount(digits: &[u8]) -> u64
    requires { numeral 10 digits.now ≡ true }
    ensures { result ≡ amount digits.now }
{
    let mut value = 0;
    for digit in digits {
        value = value * 10 + u64::from(*digit - b'0');
    }
    value
}

// The length of the longest beginning that is a number of at most so many digits; 0 where none is.
fn number_length(field: &[u8], most: usize) -> usize
    requires { 1 ≤ most }
    ensures { result ≡ longest (numeral most) field.now }
{
    if field.starts_with(b"0") {
        return 1;
    }
    field
        .iter()
        .take(most)
        .take_while(|byte| byte.is_ascii_digit())
        .count()
}
