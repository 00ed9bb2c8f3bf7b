// The calls of a trial as another crate makes them, one after another, with nothing left to show; and tests of them.
// It may use the crates model, theory, text, tables, ladder, layers, rules, rounds, grammar, records, formula, trial and pairs.
#![tactic(auto)]

mod calls;
#[cfg(test)]
mod tests;
