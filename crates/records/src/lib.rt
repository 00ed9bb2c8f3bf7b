// What a formula is read into: its records, the comparisons in them, and the faults of a text that is none or is not judged.
#![tactic(auto)]

pub mod comparison;
pub mod fault;
pub mod record;
