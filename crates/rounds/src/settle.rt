ghost use Rattle.rounds.specs.Settles.{Settling};

use crate::backup::ByRule;
use crate::fault::RoundsFault;
use crate::lengths::check_lengths;
use crate::step::one_round;
use model::branch::Branch;
use model::limits::STATES;
use model::source::Source;
use rules::denominator::Denominator;
use rules::marks::Marks;

// Rounds of marks until a round changes no mark. It answers which round that was, the first one being round 1; afterwards
// `marks` holds the marks that no further round changes, and `spare` the same. From marks of which the first round
// takes none away, or to which it adds none, such a round comes within one round more than there are states. From
// others it may never come, so the rounds stop then, and the answer is that there was none.
pub fn settle<S: Source>(
    source: &S,
    rule: &Marks,
    marks: &mut [bool],
    spare: &mut [bool],
) -> Result<Option<usize>, RoundsFault>
    ensures { Settling rule.now.preference (S.Source.model source.now) marks.old spare.old marks.new spare.new result }
{
    let states = source.states();
    check_lengths(states, marks.len(), spare.len())?;
    let backup = ByRule { rule };
    let denominator = Denominator::of(source);
    let mut buffer = [Branch::default(); STATES];
    let mut done = 0;
    // The value of the loop: the number of the round that changed no mark, or none after one round more than there are states.
    let reached = loop {
        if done > states {
            break None;
        }
        one_round(source, denominator, &backup, marks, spare, &mut buffer);
        done += 1;
        if *marks == *spare {
            break Some(done);
        }
    };
    Ok(reached)
}
