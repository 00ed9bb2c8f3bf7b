// A list of calls on a trial, refused ones included, played one after another on one trial over a source.
// It may use the crates model, theory, layers, rules, rounds, text, grammar, records, formula and trial.
#![tactic(auto)]

pub mod call;
mod play;
pub mod replay;
