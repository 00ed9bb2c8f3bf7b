// The model text: what a text describes, which question refuses it, and the readers of its fields.
// It may use the model crate.
#![tactic(auto)]

pub mod cut;
pub mod fault;
pub mod labels;
mod lawful;
pub mod number;
#[cfg(test)]
mod tests;
pub mod word;
