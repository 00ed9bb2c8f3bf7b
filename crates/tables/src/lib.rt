// The tables that hold a loaded model: a source of rows, with its text loaded and written.
// It may use the model, text and flat crates, and itoa for the digits of numbers; its proofs cite the laws of the text.
#![tactic(auto)]

pub mod copy;
pub mod fresh;
pub mod load;
mod page;
pub mod source;
pub mod tables;
pub mod write;
