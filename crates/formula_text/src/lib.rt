// What is printed of a formula's text: the table of its records, or its refusal with a caret under the place.
// It may use the crates model, theory, text, grammar, records, formula and printing.
#![tactic(auto)]

pub mod answer;
mod table;
#[cfg(test)]
mod tests;
pub mod words;
