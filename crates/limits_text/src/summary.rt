ghost use Rattle.std.specs.Prelude.{◌≡◌, Some};
ghost use Rattle.limits_text.specs.Summaries.{summary_of, summary_line, summary_text};

use crate::count::how_many;
use crate::outcome::Outcome;
use std::fmt;

// How many formulas a list of limits has, how many of them hold at every state, fail somewhere, are undecided somewhere and
// fail nowhere, and are refused.
#[derive(Clone, Copy, PartialEq, Eq, Debug)]
pub struct Summary {
    pub formulas: usize,
    pub hold: usize,
    pub fail: usize,
    pub undecided: usize,
    pub refused: usize,
}

impl Summary {
    // The summary of the outcomes of a list's formulas.
    pub fn of(outcomes: &[Outcome]) -> Summary
        ensures { result ≡ summary_of outcomes.now }
    {
        Summary {
            formulas: outcomes.len(),
            hold: how_many(Outcome::Holds, outcomes),
            fail: how_many(Outcome::Fails, outcomes),
            undecided: how_many(Outcome::Undecided, outcomes),
            refused: how_many(Outcome::Refused, outcomes),
        }
    }
}

// A line of the summary: a number, and what it counts. The line of a state has this shape too; a type of both would be generic
// over what follows the number, and its output no plainer than two.
#[derive(Clone, Copy)]
struct Line(usize, &'static str);

impl fmt::Display for Line {
    ghost output = { λ l. Some (summary_line l.0 l.1.now) };

    #[tactic(auto, using(crate::proofs::Cells::right_written))]
    fn fmt<W: fmt::Write>(&self, f: &mut fmt::Formatter<W>) -> fmt::Result {
        let Line(number, what) = *self;
        write!(f, "  {number:>5}  {what}\n")
    }
}

// The summary in words, a line for each number.
impl fmt::Display for Summary {
    ghost output = { λ s. Some (summary_text s) };

    fn fmt<W: fmt::Write>(&self, f: &mut fmt::Formatter<W>) -> fmt::Result {
        let formulas = Line(self.formulas, "formulas");
        let hold = Line(self.hold, "hold at every state");
        let fail = Line(self.fail, "fail somewhere");
        let undecided = Line(self.undecided, "undecided somewhere and fail nowhere");
        let refused = Line(self.refused, "refused");
        write!(f, "summary\n{formulas}{hold}{fail}{undecided}{refused}")
    }
}
