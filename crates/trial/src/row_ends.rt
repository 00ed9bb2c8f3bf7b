ghost use Rattle.std.specs.Prelude.{◌≡◌, ◌≤◌, length};
ghost use Rattle.theory.specs.Ends.{held};
ghost use Rattle.theory.specs.Rounds.{rounds};
ghost use Rattle.rounds.specs.Refusals.{most_rounds};
ghost use Rattle.trial.specs.Queries.{marked};
ghost use Rattle.trial.specs.Rows.{start_part};
ghost use Rattle.trial.specs.StateValues.{ValuesOf};

use crate::ends::start_end;
use crate::per_state::PerState;
use crate::until::Until;
use model::source::Source;
use rounds::run::rounds;
use rules::part::Part;
use rules::rule::Rule;

// The ends after so many rounds under a rule of parts, from the whole at the states with the byte 1. That the rounds are few is
// asked here and wherever rounds are made: a count with that fact in its type would be made at each of these calls. Where both
// ends have their rounds, and where marks settle, the front of an array is lent as here: one function for the three would
// be lent their call as a closure, whose clause would be that of the call.
pub(crate) fn ends_after<S: Source, R: Rule<Value = Part>>(
    source: &S,
    rule: &R,
    right: &[u8],
    count: u64,
) -> PerState<Part>
    requires right_long { length right.now ≡ (S.Source.model source.now).states }
    requires few { count ≤ most_rounds }
    ensures { ValuesOf (S.Source.model source.now).states result.values (rounds (R.Rule.preferred rule.now) (R.Rule.mixed rule.now) count (S.Source.model source.now) (start_part (marked right.now))) }
{
    let states = source.states();
    let mut values = start_end(right).values;
    let mut spare = values;
    let front = &mut values[..states];
    rounds(source, rule, front, &mut spare[..states], count).unwrap();
    PerState { values }
}

impl<'s, 'm, S: Source> Until<'s, 'm, S> {
    // The same over the layer that holds the settled states of the until.
    pub(crate) fn ends<R: Rule<Value = Part>>(&self, rule: &R, steps: u64) -> PerState<Part>
        requires { steps ≤ most_rounds }
        ensures { ValuesOf (S.Source.model self.now.source.now).states result.values (rounds (R.Rule.preferred rule.now) (R.Rule.mixed rule.now) steps (held (marked self.now.left.now) (marked self.now.right.now) (S.Source.model self.now.source.now)) (start_part (marked self.now.right.now))) }
    {
        ends_after(&self.layer(), rule, self.right, steps)
    }
}
