// What is printed of a model and of a refusal: text out of values.
// It may use the crates model, text, ladder and layers.
#![tactic(auto)]

pub mod caret;
mod counts;
mod labels;
mod lay;
pub mod listing;
mod style;
pub mod totals;
pub mod words;
