use printing::totals::Totals;
use std::alloc::{AllocError, Global};
use tables::tables::Tables;

// The totals of a source, in one line.
pub(crate) fn counts(heap: Global, totals: Totals) -> Result<String, AllocError> {
    let Totals {
        states,
        denominator,
        choices,
        branches,
        ..
    } = totals;
    format!(in heap;
        "ok states {states} denominator {denominator} choices {choices} branches {branches}"
    )
}

// Are all bytes still those that the buffer was made with?
fn untouched(bytes: &[u8]) -> bool {
    bytes.iter().all(|byte| *byte == 255)
}

// Does the table write this text into a buffer with so much room, or leave the buffer alone where it is too short?
fn writes_into(
    heap: Global,
    tables: &Tables,
    text: &[u8],
    room: usize,
) -> Result<bool, AllocError> {
    let mut buffer = vec![in heap; 255u8; room]?;
    match tables.write(buffer.as_mut_slice()) {
        Ok(count) => match buffer.as_slice().strip_prefix(text) {
            Some(rest) => Ok(count == text.len() && untouched(rest)),
            None => Ok(false),
        },
        Err(fault) => Ok(fault.number() == 15 && room < text.len() && untouched(buffer.as_slice())),
    }
}

// Does the table write this text, with just the room for it and with more, and nothing with one byte less?
pub(crate) fn writes(heap: Global, tables: &Tables, text: &[u8]) -> Result<bool, AllocError> {
    let room = text.len();
    Ok(
        writes_into(heap, tables, text, room)?
            && writes_into(heap, tables, text, room.saturating_add(3))?
            && writes_into(heap, tables, text, room.saturating_sub(1))?,
    )
}
