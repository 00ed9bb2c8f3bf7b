ghost use Rattle.std.specs.Prelude.{◌≡◌, ◌≤◌, cond, length, map, slice_index_or};
ghost use Rattle.theory.specs.Mixes.{whole};
ghost use Rattle.theory.specs.Rounds.{rounds as rounds_of};
ghost use Rattle.rules.specs.declared.part.Part.{Part as PartValue};
ghost use Rattle.rules.specs.declared.rounding.Rounding.TheVariants.{Down, Up};
ghost use Rattle.rules.specs.Parts.{part_of, prefers_part, mix_rounded, in_parts};
ghost use Rattle.rules.specs.Values.{told};
ghost use Rattle.rounds.specs.Ends.{lower_of, upper_of};
ghost use Rattle.rounds.specs.Refusals.{most_rounds};
ghost use Rattle.trial.specs.Queries.{marked};
ghost use Rattle.trial.specs.Rows.{start_part};
ghost use Rattle.trial.specs.StateValues.{ValuesOf};

use crate::per_state::PerState;
use model::source::Source;
use rounds::interval::Interval;
use rounds::run::rounds_of_ends;
use rules::part::Part;
use rules::preference::Preference;
use rules::units::WHOLE;

// The part of so many units, of which there are no more than the whole has.
fn part(units: u32) -> Part
    requires { units ≤ whole }
    ensures { result ≡ part_of units }
{
    Part::try_from(units).unwrap()
}

// Values that begin as one at the states with the byte 1, and as another elsewhere.
fn start_values<T: Copy>(right: &[u8], there: T, elsewhere: T) -> PerState<T>
    requires { length right.now ≤ 512 }
    ensures { ValuesOf (length right.now) result.values (λ s. cond (marked right.now s) there elsewhere) }
{
    PerState::of(
        right,
        elsewhere,
        |byte| if byte == 1 { there } else { elsewhere },
    )
}

// An end begins with the whole at the states with the byte 1 and 0 elsewhere.
pub(crate) fn start_end(right: &[u8]) -> PerState<Part>
    requires { length right.now ≤ 512 }
    ensures { ValuesOf (length right.now) result.values (start_part (marked right.now)) }
{
    start_values(right, part(WHOLE), part(0))
}

// Both ends of a state begin alike.
pub(crate) fn start_ends(right: &[u8]) -> PerState<Interval>
    requires { length right.now ≤ 512 }
    ensures lower { ValuesOf (length right.now) (map lower_of result.values) (start_part (marked right.now)) }
    ensures upper { ValuesOf (length right.now) (map upper_of result.values) (start_part (marked right.now)) }
{
    let (whole, nothing) = (part(WHOLE), part(0));
    start_values(
        right,
        Interval {
            lower: whole,
            upper: whole,
        },
        Interval {
            lower: nothing,
            upper: nothing,
        },
    )
}

// Both ends of the states after so many rounds more, in one pass: the lower ones are rounded down, and the upper ones up.
pub(crate) fn advanced_ends<S: Source>(
    source: &S,
    preference: Preference,
    ends: &PerState<Interval>,
    count: u64,
) -> PerState<Interval>
    requires { count ≤ most_rounds }
    ensures lower { (d : PartValue) → ValuesOf (S.Source.model source.now).states (map lower_of result.values) (rounds_of (prefers_part preference) (in_parts (mix_rounded Down)) count (S.Source.model source.now) (told (map lower_of ends.now.values) d)) }
    ensures upper { (d : PartValue) → ValuesOf (S.Source.model source.now).states (map upper_of result.values) (rounds_of (prefers_part preference) (in_parts (mix_rounded Up)) count (S.Source.model source.now) (told (map upper_of ends.now.values) d)) }
{
    let states = source.states();
    let mut values = ends.values;
    let mut spare = values;
    rounds_of_ends(
        source,
        preference,
        &mut values[..states],
        &mut spare[..states],
        count,
    )
    .unwrap();
    PerState { values }
}

// The lower ends and the upper ones.
pub(crate) fn split_ends(ends: &PerState<Interval>) -> (PerState<Part>, PerState<Part>)
    ensures lower { ValuesOf 512 result.0.values (λ s. slice_index_or (map lower_of ends.now.values) s (part_of 0)) }
    ensures upper { ValuesOf 512 result.1.values (λ s. slice_index_or (map upper_of ends.now.values) s (part_of 0)) }
{
    let lower = PerState {
        values: ends.values.map(|ends| ends.lower),
    };
    let upper = PerState {
        values: ends.values.map(|ends| ends.upper),
    };
    (lower, upper)
}
