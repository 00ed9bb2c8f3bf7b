// Value rules: the trait that every rule implements, parts, rounded down or up, and marks.
// It may use the crates model and theory.
#![tactic(auto)]

pub mod denominator;
pub mod fault;
pub mod marks;
mod order;
pub mod part;
pub mod parts;
pub mod preference;
pub mod rounding;
pub mod rule;
mod sum;
pub mod units;
