// Lists of calls as another crate has them played, each beside the list that is wanted of it; and tests of them.
// It may use the crates model, theory, text, tables, ladder, layers, rules, rounds, grammar, records, formula, trial, replay, ring and pairs.
#![tactic(auto)]

mod script;
#[cfg(test)]
mod tests;
