// The formula reader: from the text of a formula to its records. It may use the model, theory, text,
// grammar and records crates.
#![tactic(auto)]

mod cursor;
pub mod extremal;
mod formulas;
pub mod reader;
mod reading;
mod token;
