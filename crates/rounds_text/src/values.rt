ghost use Rattle.std.specs.Prelude.{◌≡◌, IfOk, vec_items};
ghost use Rattle.std.specs.Result.{result_map_both};
ghost use Rattle.rounds.specs.Runs.{listed};
ghost use Rattle.rounds_text.specs.Numberings.{values_made};

use crate::numbered::Numbered;
use rules::fault::PartFault;
use std::alloc::{AllocError, Global};

// The values that numbers stand for, or why one of them stands for none. By a loop: this and a want of memory each end it with an
// answer of its own. `try_collect` has one error for both, and `collect`, which makes a `Result` of a list besides, promises
// nothing of it.
pub(crate) fn values<V: Numbered>(
    heap: Global,
    numbers: &[u64],
) -> Result<Result<Vec<V>, PartFault>, AllocError>
    ensures { IfOk result (λ made. result_map_both vec_items (λ e. e) made ≡ values_made V.numbering numbers.now) }
{
    let mut values = Vec::new(heap);
    for number in numbers {
        match V::from_number(*number) {
            Ok(value) => values.push(value)?,
            Err(fault) => return Ok(Err(fault)),
        }
    }
    Ok(Ok(values))
}

// The value that 0 stands for, once for each state.
pub(crate) fn zeros<V: Numbered>(heap: Global, states: usize) -> Result<Vec<V>, AllocError>
    ensures { IfOk result (λ zeros. zeros.items ≡ listed states (λ _. V.numbering.value 0)) }
{
    (0..states).map(|_| V::zero()).collect(heap)
}
