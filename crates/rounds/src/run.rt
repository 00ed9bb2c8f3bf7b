ghost use Rattle.std.specs.Prelude.{map};
ghost use Rattle.rules.specs.Parts.{prefers_part, mix_rounded, in_parts};
ghost use Rattle.rules.specs.declared.rounding.Rounding.TheVariants.{Down, Up};
ghost use Rattle.rounds.specs.Backups.{BackupsRan};
ghost use Rattle.rounds.specs.Ends.{lower_of, upper_of};
ghost use Rattle.rounds.specs.Runs.{Ran};

use crate::backup::{Backup, ByRule};
use crate::ends::BothEnds;
use crate::fault::RoundsFault;
use crate::interval::Interval;
use crate::lengths::check_lengths;
use crate::step::one_round;
use model::branch::Branch;
use model::limits::STATES;
use model::source::Source;
use rules::denominator::Denominator;
use rules::preference::Preference;
use rules::rule::Rule;

// There are at most so many rounds.
pub const MOST_ROUNDS: u64 = 100_000;

// So many rounds of the values of the states by a backup.
fn run<S: Source, B: Backup>(
    source: &S,
    backup: &B,
    values: &mut [B::Value],
    spare: &mut [B::Value],
    count: u64,
) -> Result<(), RoundsFault>
    ensures { BackupsRan (B.Backup.chosen backup.now) (B.Backup.mixed backup.now) (S.Source.model source.now) count values.old spare.old values.new spare.new result }
{
    check_lengths(source.states(), values.len(), spare.len())?;
    if count > MOST_ROUNDS {
        return Err(RoundsFault::Count);
    }
    let denominator = Denominator::of(source);
    let mut buffer = [Branch::default(); STATES];
    for _ in 0..count {
        one_round(source, denominator, backup, values, spare, &mut buffer);
    }
    Ok(())
}

// `count` rounds of the values under the rule. Afterwards `values` holds the values after that many rounds, and `spare`
// those after one round less.
pub fn rounds<S: Source, R: Rule>(
    source: &S,
    rule: &R,
    values: &mut [R::Value],
    spare: &mut [R::Value],
    count: u64,
) -> Result<(), RoundsFault>
    ensures { Ran (R.Rule.preferred rule.now) (R.Rule.mixed rule.now) (S.Source.model source.now) count values.old spare.old values.new spare.new result }
{
    run(source, &ByRule { rule }, values, spare, count)
}

// `count` rounds of both ends at once: the lower ones are as after that many rounds of parts rounded down, the upper ones as
// after rounds of parts rounded up, in one pass over the model's rows.
pub fn rounds_of_ends<S: Source>(
    source: &S,
    preference: Preference,
    ends: &mut [Interval],
    spare: &mut [Interval],
    count: u64,
) -> Result<(), RoundsFault>
    ensures lower { Ran (prefers_part preference) (in_parts (mix_rounded Down)) (S.Source.model source.now) count (map lower_of ends.old) (map lower_of spare.old) (map lower_of ends.new) (map lower_of spare.new) result }
    ensures upper { Ran (prefers_part preference) (in_parts (mix_rounded Up)) (S.Source.model source.now) count (map upper_of ends.old) (map upper_of spare.old) (map upper_of ends.new) (map upper_of spare.new) result }
{
    run(source, &BothEnds { preference }, ends, spare, count)
}
