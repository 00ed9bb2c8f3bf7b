// Rounds on lists that are given and printed as text.
// It may use the crates model, theory, text, rules, rounds and printing.
#![tactic(auto)]

pub mod fault;
pub mod given;
pub mod kind;
mod listed;
pub mod numbered;
pub mod request;
mod values;
