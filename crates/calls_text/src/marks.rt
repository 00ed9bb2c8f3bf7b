ghost use Rattle.std.specs.Prelude.{◌≡◌, IfOk, vec_items};
ghost use Rattle.std.specs.Option.{option_map};
ghost use Rattle.calls_text.specs.Words.{marks_of};

use std::alloc::{AllocError, Global};

// The bytes of a list of marks, of which a word writes each as a digit; `-` writes the empty list. Any digit is a byte: one
// that is no mark is for the trial to refuse.
#[tactic(auto, using(crate::proofs::Spellings::compared))]
pub(crate) fn marks_of(heap: Global, word: &[u8]) -> Result<Option<Vec<u8>>, AllocError>
    ensures { IfOk result (λ marks. option_map vec_items marks ≡ marks_of word.now) }
{
    if word == b"-".as_slice() {
        return Ok(Some(Vec::new(heap)));
    }
    if word.is_empty() {
        return Ok(None);
    }
    if !word.iter().all(|byte| byte.is_ascii_digit()) {
        return Ok(None);
    }
    let marks = word.iter().map(|byte| *byte - b'0').collect(heap)?;
    Ok(Some(marks))
}
