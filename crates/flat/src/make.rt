ghost use Rattle.std.specs.Prelude.{◌≡◌, ◌≤◌, IfOk, vec_capacity};
ghost use Rattle.flat.specs.Fresh.{FreshFlat};

use crate::flat::Flat;
use model::branch::Branch;
use model::labels::Labels;
use model::limits::{BRANCHES, CHOICES, STATES};
use std::alloc::{AllocError, Global};

impl Flat {
    // Flat arrays of one state, with no labels and one choice back to it. All their room is reserved here, so that
    // reading a text wants no memory.
    pub fn new(heap: Global) -> Result<Flat, AllocError>
        ensures { IfOk result FreshFlat }
    {
        let labels = reserved(heap, STATES, &[Labels::default()])?;
        let starts = reserved(heap, STATES + 1, &[0usize, 1])?;
        let offsets = reserved(heap, CHOICES + 1, &[0usize, 1])?;
        let branches = reserved(
            heap,
            BRANCHES,
            &[Branch {
                target: 0,
                weight: 1,
            }],
        )?;
        Ok(Flat {
            denominator: 1,
            labels,
            starts,
            offsets,
            branches,
        })
    }
}

// A list that begins with these items, with this much room.
fn reserved<T: Copy + Drop>(heap: Global, room: usize, items: &[T]) -> Result<Vec<T>, AllocError>
    ensures { IfOk result (λ v. (v.items ≡ items.now) × (room ≤ vec_capacity v)) }
{
    let mut list = Vec::with_capacity(heap, room)?;
    list.extend_from_slice(items)?;
    Ok(list)
}
