ghost use Rattle.std.specs.Prelude.{◌≡◌, ◌≤◌, length};
ghost use Rattle.formula.specs.Extremals.{bound_meant};
ghost use Rattle.formula.specs.Tokens.{meant};
ghost use Rattle.theory.specs.Formulas.{extremal as extremal_of};
ghost use Rattle.trial.specs.Rows.{sets, bound_sets, bytes, extremal_verdicts, until_verdicts};

use crate::path_ends::possible_marks;
use crate::per_state::PerState;
use crate::rows::{constant_row, mark_row};
use crate::threshold::Threshold;
use crate::until::Until;
use formula::extremal::Extremal;
use model::source::Source;

// The row that the marks on the sure sets and those on the possible sets give under a bound.
fn bound_row(
    bound: Extremal,
    on_sure: &PerState<bool>,
    on_possible: &PerState<bool>,
    row: &mut [u8],
)
    requires { length row.old ≤ 512 }
    ensures { row.new ≡ bytes (length row.old) (bound_sets (bound_meant bound) on_sure.now.values on_possible.now.values) }
{
    match bound {
        Extremal::OverNone | Extremal::AtLeastWhole => mark_row(on_sure, on_possible, row),
        Extremal::AtMostNone => mark_row(on_possible, on_sure, row),
    }
}

// In both functions here `row` is an argument, whose length each asks: a row is lent for writing beside a source of its own,
// and is no field of an until, which only reads.
impl<'s, 'm, S: Source> Until<'s, 'm, S> {
    // The row of the until without steps under one of its three bounds.
    fn extremal_row(&self, bound: Extremal, row: &mut [u8])
        requires { length row.old ≡ (S.Source.model self.now.source.now).states }
        ensures { row.new ≡ bytes (S.Source.model self.now.source.now).states (extremal_verdicts (bound_meant bound) (S.Source.model self.now.source.now) (sets self.now.left.now) (sets self.now.right.now)) }
    {
        // The until of what is possible borrows both lists of marks, so they live here, and where an until with steps has its ends:
        // a type that owned them would still want a `let` for itself and one for its until, and a method that lent the until to a
        // closure would want the closure's clause at both places.
        let left = possible_marks(self.left);
        let right = possible_marks(self.right);
        let possible = Until::of_fronts(self.source, &left, &right);
        let on_sure = self.settled_marks(bound);
        let on_possible = possible.settled_marks(bound);
        bound_row(bound, &on_sure, &on_possible, row);
    }

    // The row of the until without steps under a comparison with a bound: a no at each state unless it is one of the three.
    pub(crate) fn row(&self, threshold: Threshold, row: &mut [u8])
        requires { length row.old ≡ (S.Source.model self.now.source.now).states }
        ensures { row.new ≡ bytes (S.Source.model self.now.source.now).states (until_verdicts (extremal_of (meant threshold.comparison) threshold.bound) (S.Source.model self.now.source.now) (sets self.now.left.now) (sets self.now.right.now)) }
    {
        match Extremal::of(threshold.comparison, threshold.bound) {
            Some(extremal) => self.extremal_row(extremal, row),
            None => constant_row(false, row),
        }
    }
}
