ghost use Rattle.std.specs.Prelude.{◌≡◌, not, ◌||◌, length, take, ◌==◌, None, Some, IfOk, MatchResult};
ghost use Rattle.theory.specs.Ends.{stops};
ghost use Rattle.trial.specs.Answers.{all_marks, start_fault};
ghost use Rattle.trial.specs.Queries.{marked};
ghost use Rattle.trial.specs.StateValues.{ValuesOf};

use crate::fault::TrialFault;
use crate::per_state::PerState;
use layers::hold::Hold;
use model::source::Source;

// "left until right" over a source: the marks of both sets, with a byte for each state.
#[derive(Drop)]
pub(crate) struct Until<'s, 'm, S: Source> {
    pub(crate) source: &'s S,
    pub(crate) left: &'m [u8],
    pub(crate) right: &'m [u8],
    ghost left_long: { length left.now ≡ (S.Source.model source.now).states },
    ghost right_long: { length right.now ≡ (S.Source.model source.now).states },
}

// Is every byte 0 or 1?
pub(crate) fn all_marks(bytes: &[u8]) -> bool
    ensures { result ≡ all_marks bytes.now }
{
    bytes.iter().all(|byte| *byte <= 1)
}

// Is an until settled at a state with these marks? It is met in right, and fails outside left.
fn settled(left: u8, right: u8) -> bool
    ensures { result ≡ (right == 1 || not (left == 1)) }
{
    right == 1 || left != 1
}

impl<'s, 'm, S: Source> Until<'s, 'm, S> {
    // The until of these marks over the source, or the first question on them whose answer is no.
    pub(crate) fn new(source: &'s S, left: &'m [u8], right: &'m [u8]) -> Result<Self, TrialFault>
        ensures asked { MatchResult result (λ _. start_fault (S.Source.model source.now).states left.now right.now ≡ None) (λ e. start_fault (S.Source.model source.now).states left.now right.now ≡ Some e) }
        ensures made { IfOk result (λ u. (u.source.now ≡ source.now) × (u.left.now ≡ left.now) × (u.right.now ≡ right.now)) }
    {
        let states = source.states();
        if left.len() != states || right.len() != states {
            return Err(TrialFault::Lengths);
        }
        if !all_marks(left) || !all_marks(right) {
            return Err(TrialFault::Marks);
        }
        Ok(Until {
            source,
            left,
            right,
        })
    }

    // The until of the marks that these have for the states of the source.
    pub(crate) fn of_fronts(source: &'s S, left: &'m PerState<u8>, right: &'m PerState<u8>) -> Self
        ensures source { result.source.now ≡ source.now }
        ensures left { result.left.now ≡ take (S.Source.model source.now).states left.now.values }
        ensures right { result.right.now ≡ take (S.Source.model source.now).states right.now.values }
    {
        let states = source.states();
        Until {
            source,
            left: &left.values[..states],
            right: &right.values[..states],
        }
    }

    // The layer in which the states that settle this until are held: those in right, and those outside left.
    pub(crate) fn layer(&self) -> Hold<&'s S>
        ensures source { result.below.now ≡ self.now.source.now }
        ensures held { ValuesOf (S.Source.model self.now.source.now).states result.held (stops (marked self.now.left.now) (marked self.now.right.now)) }
    {
        let mut layer = Hold::over(self.source);
        for (state, (left, right)) in self.left.iter().zip(self.right).enumerate() {
            if settled(*left, *right) {
                layer.hold(state).unwrap();
            }
        }
        layer
    }
}
