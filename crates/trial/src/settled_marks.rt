ghost use Rattle.std.specs.Prelude.{false, not, slice_index_or};
ghost use Rattle.theory.specs.Ends.{held};
ghost use Rattle.theory.specs.WithoutSteps.{marked_set, over_none, at_most_none, at_least_whole};
ghost use Rattle.rounds.specs.Settles.{marks_after, TakesNone};
ghost use Rattle.formula.specs.Extremals.{bound_meant};
ghost use Rattle.trial.specs.Queries.{marked};
ghost use Rattle.trial.specs.StateValues.{ValuesOf};

use crate::per_state::PerState;
use crate::until::Until;
use formula::extremal::Extremal;
use model::limits::STATES;
use model::source::Source;
use rounds::settle::settle;
use rules::marks::Marks;
use rules::preference::Preference;

impl PerState<bool> {
    // Each mark turned round.
    fn flipped(self) -> PerState<bool>
        ensures { ValuesOf 512 result.values (λ s. not (slice_index_or self.values s false)) }
    {
        PerState {
            values: self.values.map(|mark| !mark),
        }
    }
}

// What rounds make of the marks of the states, once a round changes none. The first round takes none away, so such a
// round comes.
fn settled_from<S: Source>(
    source: &S,
    preference: Preference,
    marks: PerState<bool>,
) -> PerState<bool>
    requires { TakesNone preference (S.Source.model source.now) marks.values }
    ensures { ValuesOf (S.Source.model source.now).states result.values (marks_after preference (S.Source.model source.now) marks.values (S.Source.model source.now).states) }
{
    let states = source.states();
    let mut values = marks.values;
    // An array of a fixed length, as that of the marks: nothing here may want memory, so no call can fail for it.
    let mut spare = [false; STATES];
    let rule = Marks { preference };
    settle(source, &rule, &mut values[..states], &mut spare[..states]).unwrap();
    PerState { values }
}

impl<'s, 'm, S: Source> Until<'s, 'm, S> {
    // The states of right.
    fn goals(&self) -> PerState<bool>
        ensures { ValuesOf (S.Source.model self.now.source.now).states result.values (marked self.now.right.now) }
    {
        PerState::of(self.right, false, |byte| byte == 1)
    }

    // What rounds make of marks over the layer that holds the settled states of the until.
    fn settled_from(&self, preference: Preference, marks: PerState<bool>) -> PerState<bool>
        requires { TakesNone preference (held (marked self.now.left.now) (marked self.now.right.now) (S.Source.model self.now.source.now)) marks.values }
        ensures { ValuesOf (S.Source.model self.now.source.now).states result.values (marks_after preference (held (marked self.now.left.now) (marked self.now.right.now) (S.Source.model self.now.source.now)) marks.values (S.Source.model self.now.source.now).states) }
    {
        settled_from(&self.layer(), preference, marks)
    }

    // The states where every adversary comes to right with a probability above 0.
    fn over_none(&self) -> PerState<bool>
        ensures { ValuesOf (S.Source.model self.now.source.now).states result.values (marked_set over_none (marked self.now.left.now) (marked self.now.right.now) (S.Source.model self.now.source.now)) }
    {
        self.settled_from(Preference::Lesser, self.goals())
    }

    // The states where no adversary does.
    fn at_most_none(&self) -> PerState<bool>
        ensures { ValuesOf (S.Source.model self.now.source.now).states result.values (marked_set at_most_none (marked self.now.left.now) (marked self.now.right.now) (S.Source.model self.now.source.now)) }
    {
        self.settled_from(Preference::Greater, self.goals())
            .flipped()
    }

    // The states where every adversary does so with certainty: those from which none can come to where one may avoid it.
    fn at_least_whole(&self) -> PerState<bool>
        ensures { ValuesOf (S.Source.model self.now.source.now).states result.values (marked_set at_least_whole (marked self.now.left.now) (marked self.now.right.now) (S.Source.model self.now.source.now)) }
    {
        let avoidable = self.over_none().flipped();
        self.settled_from(Preference::Greater, avoidable).flipped()
    }

    // The states where the until holds under the bound, for the states with the byte 1 in each list.
    pub(crate) fn settled_marks(&self, bound: Extremal) -> PerState<bool>
        ensures { ValuesOf (S.Source.model self.now.source.now).states result.values (marked_set (bound_meant bound) (marked self.now.left.now) (marked self.now.right.now) (S.Source.model self.now.source.now)) }
    {
        match bound {
            Extremal::OverNone => self.over_none(),
            Extremal::AtMostNone => self.at_most_none(),
            Extremal::AtLeastWhole => self.at_least_whole(),
        }
    }
}
