// A text of calls on a trial, read into the calls, and their answers printed.
// It may use the crates model, theory, rules, layers, text, grammar, records, formula, trial, replay, printing and formula_text.
#![tactic(auto)]

mod answer_text;
pub mod hold;
pub mod kind;
mod line;
mod marks;
pub mod mistake;
pub mod print;
pub mod read;
mod record_text;
mod refusals;
mod request;
pub mod script;
mod signs;
mod sizes;
mod unplayed;
mod words;
