ghost use Rattle.std.specs.Prelude.{◌≡◌, IfOk, vec_items};
ghost use Rattle.std.specs.Option.{option_map};
ghost use Rattle.rounds_text.specs.Given.{numbers_given, are_marks};

use std::alloc::{AllocError, Global};
use text::number::long_number;

// The numbers that a word writes, parted by commas; none where a piece of it is no number. By a loop, since `try_collect` has one
// error for this and for a want of memory, and `collect`, which makes an `Option` of a list besides, promises nothing of it.
pub fn numbers(heap: Global, word: &[u8]) -> Result<Option<Vec<u64>>, AllocError>
    ensures { IfOk result (λ given. option_map vec_items given ≡ numbers_given word.now) }
{
    let mut numbers = Vec::new(heap);
    for piece in word.split(|byte| *byte == b',') {
        let Some(number) = long_number(piece) else {
            return Ok(None);
        };
        numbers.push(number)?;
    }
    Ok(Some(numbers))
}

// Is each number 0 or 1?
pub fn are_marks(numbers: &[u64]) -> bool
    ensures { result ≡ are_marks numbers.now }
{
    numbers.iter().all(|number| *number <= 1)
}
