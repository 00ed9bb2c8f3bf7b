ghost use Rattle.std.specs.Prelude.{◌≤◌};
ghost use Rattle.rounds.specs.Refusals.{most_rounds};

use crate::aim::Aim;
use crate::per_state::PerState;
use rounds::interval::Interval;

// What a trial keeps of the query that stands: what it asks for, how many rounds it has had, its marks, and both ends of each
// state. No code reads the marks: they are there for the definition of the query that stands.
#[derive(Drop)]
pub(crate) struct QueryState {
    pub(crate) aim: Aim,
    pub(crate) rounds: u64,
    pub(crate) left: PerState<u8>,
    pub(crate) right: PerState<u8>,
    pub(crate) ends: PerState<Interval>,
    ghost few: { rounds ≤ most_rounds },
}
