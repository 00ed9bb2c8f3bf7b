ghost use Rattle.std.specs.Prelude.{◌≤◌};

use crate::per_state::PerState;
use rules::part::Part;

// The two ends, at each state, that the verdicts of a formula are read off. Each has a list of its own, since those of a next,
// and of an until whose parts are not decided, are made one after the other, from different marks.
#[derive(Drop)]
pub struct Ends {
    pub(crate) states: usize,
    pub(crate) lower: PerState<Part>,
    pub(crate) upper: PerState<Part>,
    ghost few: { states ≤ 512 },
}
