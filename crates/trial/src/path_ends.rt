ghost use Rattle.std.specs.Prelude.{◌≡◌, ℕ, ◌<◌, ◌≤◌, length};
ghost use Rattle.formula.specs.Tokens.{meant};
ghost use Rattle.theory.specs.Ends.{lower as lower_end, upper as upper_end, next_lower, next_upper};
ghost use Rattle.theory.specs.Formulas.{most_steps};
ghost use Rattle.theory.specs.Verdicts.{asked, read_off};
ghost use Rattle.rules.specs.Parts.{prefers_number};
ghost use Rattle.trial.specs.Queries.{marked};
ghost use Rattle.trial.specs.Rows.{sets, bytes};
ghost use Rattle.trial.specs.PathEnds.{EndsAre, ends_at};

use crate::aim::Aim;
use crate::ends::{advanced_ends, split_ends, start_ends};
use crate::per_state::PerState;
use crate::row_ends::ends_after;
use crate::rows::write_row;
use crate::threshold::Threshold;
use crate::two_ends::Ends;
use crate::until::{Until, all_marks};
use model::source::Source;
use records::comparison::Comparison;
use rounds::interval::Interval;
use rules::part::Part;
use rules::preference::Preference;
use rules::rounding::Rounding;

impl Ends {
    // The lower and the upper end at a state, if there is such a state: a tuple, as the ends of a trial are told.
    pub fn at(&self, state: usize) -> Option<(Part, Part)>
        ensures { (n : ℕ) (lo hi : ℕ → ℕ) → EndsAre n lo hi self.now → result ≡ ends_at n lo hi state }
    {
        if state >= self.states {
            return None;
        }
        Some((self.lower.at(state), self.upper.at(state)))
    }

    // Writes the row of the verdicts that are read off them.
    pub(crate) fn write_row(&self, threshold: Threshold, row: &mut [u8])
        requires { length row.old ≤ 512 }
        ensures { (lo hi : ℕ → ℕ) → EndsAre (length row.old) lo hi self.now → row.new ≡ bytes (length row.old) (read_off (meant threshold.comparison) threshold.bound lo hi) }
    {
        write_row(row, |state| {
            threshold.read_off(Interval {
                lower: self.lower.at(state),
                upper: self.upper.at(state),
            })
        });
    }
}

// The marks of the states where a part is not a no. Of a part's byte, 1 is sure and any but 0 is possible:
// a part may have any byte, so a byte is compared and not turned into a `Verdict`.
pub(crate) fn possible_marks(part: &[u8]) -> PerState<u8>
    requires { length part.now ≤ 512 }
    ensures { (s : ℕ) → s < length part.now → marked result.values s ≡ (sets part.now).possible s }
{
    PerState::of(part, 0, |byte| u8::from(byte != 0))
}

// The ends of a next under a comparison: the lower ones over what is sure of its part, the upper ones over what is possible.
pub(crate) fn next_ends<S: Source>(source: &S, comparison: Comparison, part: &[u8]) -> Ends
    requires { length part.now ≡ (S.Source.model source.now).states }
    ensures { EndsAre (S.Source.model source.now).states (next_lower (asked (meant comparison)) (sets part.now).sure (S.Source.model source.now)) (next_upper (asked (meant comparison)) (sets part.now).possible (S.Source.model source.now)) result }
{
    let aim = Aim::from(comparison);
    let possible = possible_marks(part);
    let lower = ends_after(source, &aim.rule(Rounding::Down), part, 1);
    let upper = ends_after(
        source,
        &aim.rule(Rounding::Up),
        &possible.values[..part.len()],
        1,
    );
    Ends {
        states: part.len(),
        lower,
        upper,
    }
}

impl<'s, 'm, S: Source> Until<'s, 'm, S> {
    // Both ends of the until with steps over its marked states, in one pass over the rows.
    fn decided_ends(&self, preference: Preference, steps: u64) -> Ends
        requires { steps ≤ most_steps }
        ensures { EndsAre (S.Source.model self.now.source.now).states (lower_end (prefers_number preference) (marked self.now.left.now) (marked self.now.right.now) steps (S.Source.model self.now.source.now)) (upper_end (prefers_number preference) (marked self.now.left.now) (marked self.now.right.now) steps (S.Source.model self.now.source.now)) result }
    {
        let start = start_ends(self.right);
        let (lower, upper) = split_ends(&advanced_ends(&self.layer(), preference, &start, steps));
        Ends {
            states: self.left.len(),
            lower,
            upper,
        }
    }

    // The ends of the until with steps under a comparison: the lower ones over what is sure of its parts, the upper ones over
    // what is possible. Where the parts are decided, these are the same states, and one pass does for both ends.
    pub(crate) fn within_ends(&self, comparison: Comparison, steps: u64) -> Ends
        requires { steps ≤ most_steps }
        ensures { EndsAre (S.Source.model self.now.source.now).states (lower_end (asked (meant comparison)) (sets self.now.left.now).sure (sets self.now.right.now).sure steps (S.Source.model self.now.source.now)) (upper_end (asked (meant comparison)) (sets self.now.left.now).possible (sets self.now.right.now).possible steps (S.Source.model self.now.source.now)) result }
    {
        let aim = Aim::from(comparison);
        if all_marks(self.left) && all_marks(self.right) {
            return self.decided_ends(aim.into(), steps);
        }
        let left = possible_marks(self.left);
        let right = possible_marks(self.right);
        let possible = Until::of_fronts(self.source, &left, &right);
        let lower = self.ends(&aim.rule(Rounding::Down), steps);
        let upper = possible.ends(&aim.rule(Rounding::Up), steps);
        Ends {
            states: self.left.len(),
            lower,
            upper,
        }
    }
}
