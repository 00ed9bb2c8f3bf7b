// What is printed of a list of limits: of each line its heading or the report of its formula, and at the end the summary.
// It may use the crates model, theory, rules, text, grammar, records, formula, trial, printing and formula_text.
#![tactic(auto)]

mod count;
pub mod item;
pub mod list;
pub mod outcome;
pub mod report;
pub mod summary;
mod table;
mod write;
