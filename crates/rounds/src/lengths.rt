ghost use Rattle.std.specs.Prelude.{◌≡◌, MatchResult, Some};
ghost use Rattle.rounds.specs.Refusals.{lengths_fault};

use crate::fault::RoundsFault;

// Refuses two lists that are not both as long as there are states.
pub(crate) fn check_lengths(states: usize, first: usize, second: usize) -> Result<(), RoundsFault>
    ensures { MatchResult result (λ _. (first ≡ states) × (second ≡ states)) (λ e. lengths_fault states first second ≡ Some e) }
{
    if first != states || second != states {
        return Err(RoundsFault::Lengths);
    }
    Ok(())
}
