ghost use Rattle.std.specs.Prelude.{Some};
ghost use Rattle.printing.specs.Listings.{totals_text};

use std::fmt;

// The totals of a model: the bytes of its text, its states, its denominator, its choices and its branches.
#[derive(Clone, Copy, PartialEq, Eq, Debug)]
pub struct Totals {
    pub bytes: usize,
    pub states: usize,
    pub denominator: u32,
    pub choices: usize,
    pub branches: usize,
}

// Totals in words, a line for each.
impl fmt::Display for Totals {
    ghost output = { λ t. Some (totals_text t) };

    fn fmt<W: fmt::Write>(&self, f: &mut fmt::Formatter<W>) -> fmt::Result {
        let Totals {
            bytes,
            states,
            denominator,
            choices,
            branches,
        } = *self;
        write!(
            f,
            "bytes {bytes}\nstates {states}\ndenominator {denominator}\nchoices {choices}\nbranches {branches}\n",
        )
    }
}
