// A trial: one until query over a source, worked out round by round, with the two ends and the verdicts read off them; and the
// rows of verdict bytes that a formula has, worked out from the rows of its parts.
// It may use the crates model, theory, layers, rules, rounds, text, grammar, records and formula.
#![tactic(auto)]

pub mod aim;
mod begin;
mod ends;
pub mod fault;
pub mod judge;
mod path_ends;
mod per_state;
mod row_ends;
mod rows;
mod settled_marks;
mod state;
mod threshold;
pub mod trial;
pub mod two_ends;
mod until;
mod until_rows;
pub mod verdict;
