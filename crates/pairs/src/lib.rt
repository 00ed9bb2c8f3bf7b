// A rule over a type of the library, pairs in lexicographic order: it shows what a rule of one's own has to bring, and that
// rounds then take it as it is. The tests of rules and rounds stand here too, with the models that they and those of a trial ask.
// It may use the crates model, theory, text, tables, ladder, layers, rules and rounds.
#![tactic(auto)]

pub mod models;
pub mod rule;
#[cfg(test)]
mod tests;
