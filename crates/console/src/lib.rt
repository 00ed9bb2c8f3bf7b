// The command line as functions on values: words and bytes in, a reply out.
// It may use the crates model, rules, text, flat, tables, ladder, layers, records, formula, replay, printing, rounds_text,
// formula_text, calls_text and limits_text.
#![tactic(auto)]

pub mod answer;
mod check_reply;
pub mod command;
mod form;
mod found;
mod given;
pub mod help;
mod named;
mod names;
pub mod parse;
pub mod promise;
pub mod reply;
mod report;
mod rounds_reply;
mod trial_reply;
