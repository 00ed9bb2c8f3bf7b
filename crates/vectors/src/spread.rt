use crate::chance::{Chance, Places};
use crate::failure::Failure;
use model::source::Source;
use rounds::run::rounds;
use rules::part::Part;
use rules::parts::Parts;
use rules::units::WHOLE;
use std::alloc::{AllocError, Global};
use std::fmt::Write;

// The whole at each state that has the digit 1, and no part at any other.
fn starts(heap: Global, digits: &str) -> Result<Vec<Part>, AllocError> {
    digits
        .as_bytes()
        .iter()
        .map(|byte| {
            let units = if *byte == b'1' { WHOLE } else { 0 };
            Part::try_from(units).unwrap()
        })
        .collect(heap)
}

// The values at each state after so many rounds of a rule of parts, over the source itself, from the whole at these states.
pub(crate) fn values<S: Source>(
    heap: Global,
    source: &S,
    rule: Parts,
    count: u64,
    digits: &str,
) -> Result<String, Failure> {
    let mut values = starts(heap, digits)?;
    let mut spare = starts(heap, digits)?;
    rounds(
        source,
        &rule,
        values.as_mut_slice(),
        spare.as_mut_slice(),
        count,
    )?;
    let mut out = String::new(heap);
    for value in &values {
        let chance = Chance {
            part: *value,
            places: Places::Nine,
        };
        write!(out, " {chance}")?;
    }
    Ok(out)
}
