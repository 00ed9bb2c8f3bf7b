ghost use Rattle.std.specs.Prelude.{◌≡◌, List, [], ◌∷◌, ◌++◌};
ghost use Rattle.trial.specs.Keeping.{standing};
ghost use Rattle.replay.specs.declared.call.Call.{Call as Calls};
ghost use Rattle.replay.specs.Standing.{Stands};
ghost use Rattle.replay.specs.Replays.{Played, Means};

use crate::call::Call;
use model::source::Source;
use trial::trial::Trial;

impl Call {
    // Makes the call on the trial and keeps its answer.
    pub(crate) fn play<S: Source>(&mut self, trial: &mut Trial<'_, S>)
        ensures played { Played (S.Source.model trial.old.layer.below.now) (standing (S.Source.model trial.old.layer.below.now).states trial.old.query) self.old self.new }
        ensures meant { Means (S.model trial.old.layer.below.now)
            (standing (S.model trial.old.layer.below.now).states trial.old.query) self.new }
        ensures query { (calls : List Calls) → Stands calls (standing (S.Source.model trial.old.layer.below.now).states trial.old.query) → Stands (calls ++ (self.new ∷ [])) (standing (S.Source.model trial.new.layer.below.now).states trial.new.query) }
        ensures source { trial.new.layer.below.now ≡ trial.old.layer.below.now }
    {
        match self {
            Call::Start {
                left,
                right,
                aim,
                answer,
            } => *answer = Some(trial.start(left.as_slice(), right.as_slice(), *aim)),
            Call::Advance { count, answer } => *answer = Some(trial.advance(*count)),
            Call::Ends { state, answer } => *answer = Some(trial.ends(*state)),
            Call::Verdict {
                state,
                comparison,
                bound,
                answer,
            } => *answer = Some(trial.verdict(*state, *comparison, *bound)),
            Call::Judge {
                text,
                records,
                scratch,
                out,
                answer,
            } => {
                *answer = Some(trial.judge(
                    text.as_slice(),
                    records.as_mut_slice(),
                    scratch.as_mut_slice(),
                    out.as_mut_slice(),
                ));
            }
        }
    }
}
