ghost use Rattle.trial.specs.Keeping.{Begun};

use crate::aim::Aim;
use crate::ends::start_ends;
use crate::per_state::PerState;
use crate::state::QueryState;
use crate::until::Until;
use model::source::Source;

impl QueryState {
    // The query for this until, with no round made.
    pub(crate) fn begun<S: Source>(until: &Until<'_, '_, S>, aim: Aim) -> QueryState
        ensures { Begun until.now.left.now until.now.right.now aim result }
    {
        QueryState {
            aim,
            rounds: 0,
            left: PerState::of(until.left, 0, |byte| byte),
            right: PerState::of(until.right, 0, |byte| byte),
            ends: start_ends(until.right),
        }
    }
}
