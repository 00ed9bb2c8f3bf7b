// What a model is: branches, labels, and the trait that every source of rows implements.
// It uses nothing but the standard library.
#![tactic(auto)]

pub mod branch;
pub mod labels;
pub mod limits;
pub mod refs;
pub mod source;
