// The theory of the checker: what adversaries, tallies, value rules, rounds, ends, formulas and verdicts are, and the theorems on them.
// Each function stands for one theorem: its contract is the statement, and it does nothing. It may use the model crate.
#![tactic(auto)]

pub mod theorems;
