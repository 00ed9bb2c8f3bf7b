// Rounds of values: one round gives a state the best mix that a choice of its own offers. One generic round serves every value
// rule.
// It may use the crates model, theory and rules.
#![tactic(auto)]

mod backup;
mod ends;
pub mod fault;
pub mod interval;
mod lengths;
mod round;
pub mod run;
pub mod settle;
mod step;
