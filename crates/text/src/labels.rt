ghost use Rattle.std.specs.Prelude.{◌≡◌};
ghost use Rattle.text.specs.Fields.{LabelsRead, ascending, lawful_labels, longest};

use crate::fault::FieldFault;
use crate::lawful::check_lawful;
use model::labels::Labels;
use std::array;

// The set of labels that field `index` of a line writes: letters from a to p in ascending order, or `-` for none.
pub fn labels(field: &[u8], index: usize) -> Result<Labels, FieldFault>
    ensures { LabelsRead field.now index result }
{
    check_lawful(field, index, labels_length(field)).map_err(FieldFault::Labels)?;
    let letters = array::from_fn(|i| field.contains(&(b'a' + i as u8)));
    Ok(Labels { letters })
}

// The length of the longest beginning that is a lawful set of labels; 0 where none is.
fn labels_length(field: &[u8]) -> usize
    ensures { result ≡ longest lawful_labels field.now }
{
    if field.starts_with(b"-") {
        return 1;
    }
    letters_length(field)
}

// How many letters from a to p ascend strictly at the front.
fn letters_length(field: &[u8]) -> usize
    ensures { result ≡ longest (ascending 97) field.now }
{
    let ascending = field.chunk_by(|x, y| x < y).next().unwrap_or(&[]);
    ascending
        .iter()
        .take_while(|byte| (b'a'..=b'p').contains(*byte))
        .count()
}
