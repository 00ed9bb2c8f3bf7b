ghost use Rattle.std.specs.Prelude.{◌≡◌, Some};
ghost use Rattle.limits_text.specs.Outcomes.{counts_of, counts_text, outcome_of};

use crate::count::how_many;
use std::fmt;

// How many states of a formula are a yes, a no and undecided.
#[derive(Clone, Copy, PartialEq, Eq, Debug)]
pub struct Counts {
    pub yes: usize,
    pub no: usize,
    pub undecided: usize,
}

// What comes of a line with a formula: it holds at every state, fails at some, is undecided at some and fails at none, or is
// refused.
#[derive(Clone, Copy, PartialEq, Eq, Debug)]
pub enum Outcome {
    Holds,
    Fails,
    Undecided,
    Refused,
}

impl Counts {
    // The counts of a row of verdict bytes.
    pub(crate) fn of(row: &[u8]) -> Counts
        ensures { result ≡ counts_of row.now }
    {
        Counts {
            yes: how_many(1, row),
            no: how_many(0, row),
            undecided: how_many(2, row),
        }
    }

    // What comes of a formula with these counts.
    pub(crate) fn outcome(self) -> Outcome
        ensures { result ≡ outcome_of self }
    {
        if self.no > 0 {
            Outcome::Fails
        } else if self.undecided > 0 {
            Outcome::Undecided
        } else {
            Outcome::Holds
        }
    }
}

// The counts in words, as a line under a table.
impl fmt::Display for Counts {
    ghost output = { λ c. Some (counts_text c) };

    fn fmt<W: fmt::Write>(&self, f: &mut fmt::Formatter<W>) -> fmt::Result {
        let Counts { yes, no, undecided } = *self;
        write!(f, "  yes {yes}, no {no}, undecided {undecided}\n")
    }
}
