ghost use Rattle.std.specs.Prelude.{◌≡◌, Some, map, IfOk, string_bytes};
ghost use Rattle.rounds_text.specs.Requests.{numbers_text, lists_text};

use crate::numbered::Numbered;
use std::alloc::{AllocError, Global};
use std::fmt;

// Values by their numbers, parted by commas.
#[derive(Clone, Copy)]
struct Listed<'a, V> {
    values: &'a [V],
}

impl<V: Numbered> fmt::Display for Listed<'_, V> {
    ghost output = { λ l. Some (numbers_text (map V.numbering.number l.values.now)) };

    fn fmt<W: fmt::Write>(&self, f: &mut fmt::Formatter<W>) -> fmt::Result {
        for (place, value) in self.values.iter().enumerate() {
            let comma = if place == 0 { "" } else { "," };
            let number = value.number();
            write!(f, "{comma}{number}")?;
        }
        Ok(())
    }
}

// Two lists of values by their numbers, a line for each.
pub(crate) fn lists_text<V: Numbered>(
    heap: Global,
    first: &[V],
    second: &[V],
) -> Result<String, AllocError>
    ensures { IfOk result (λ s. string_bytes s ≡ lists_text (map V.numbering.number first.now) (map V.numbering.number second.now)) }
{
    let first = Listed { values: first };
    let second = Listed { values: second };
    format!(in heap; "first {first}\nsecond {second}\n")
}
