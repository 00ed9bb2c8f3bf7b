// The bytes that an escaped text stands for: programs read their cases from lines, in which a case's text is escaped.
// It uses no other crate.
#![tactic(auto)]

ghost use Rattle.std.specs.Prelude.{◌≡◌, IfOk};
ghost use Rattle.escapes.specs.Escapes.{expanded};

mod escaped;
mod repeats;
#[cfg(test)]
mod tests;

use crate::repeats::push_part;
use std::alloc::{AllocError, Global};

// The bytes that the text stands for, in which `{5:x}` stands for xxxxx, and a backslash and a letter for a byte.
pub fn expand(heap: Global, text: &str) -> Result<Vec<u8>, AllocError>
    ensures { IfOk result (λ bytes. bytes.items ≡ expanded text.now) }
{
    let mut out = Vec::new(heap);
    for part in text.split('{') {
        push_part(part, &mut out)?;
    }
    Ok(out)
}
