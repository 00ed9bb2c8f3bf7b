// A model in flat arrays, and reading the model that a text describes into them.
// It may use the model and text crates; its proofs cite the laws of the text.
#![tactic(auto)]

mod draft;
pub mod flat;
mod line;
mod loader;
pub mod make;
pub mod read;
mod step;
