// The ladder: a source that is worked out from three numbers and keeps no table.
// It may use the model crate.
#![tactic(auto)]

pub mod fault;
pub mod ladder;
pub mod make;
pub mod source;
