ghost use Rattle.std.specs.Prelude.{◌≡◌, ◌*◌, ◌≤◌, length};
ghost use Rattle.model.specs.Mdp.{LawfulRow};
ghost use Rattle.theory.specs.Mixes.{sum_of, whole};
ghost use Rattle.theory.specs.Rules.{valued};
ghost use Rattle.rules.specs.Parts.{prefers_part};
ghost use Rattle.rules.specs.Values.{told, carried};
ghost use Rattle.rounds.specs.declared.interval.Interval.{Interval as IntervalValue};
ghost use Rattle.rounds.specs.Backups.{better_by};
ghost use Rattle.rounds.specs.Ends.{lower_units, upper_units, better_ends, mixed_ends};

use crate::backup::Backup;
use crate::interval::Interval;
use model::branch::Branch;
use rules::denominator::Denominator;
use rules::part::Part;
use rules::preference::Preference;

// The backup of both ends at once: the lower ones are rounded down, and the upper ones up. So a row is gone over once for the
// two.
#[derive(Drop)]
pub(crate) struct BothEnds {
    pub(crate) preference: Preference,
}

// The better of two parts.
fn better_part(preference: Preference, a: Part, b: Part) -> Part
    ensures { result ≡ better_by (prefers_part preference) a b }
{
    if preference.prefers(a, b) { a } else { b }
}

// The sums of weight times value over a lawful row, of the lower ends and of the upper ones: one pass over the row, with both
// sums in step.
fn weighted_sums(denominator: &Denominator, row: &[Branch], values: &[Interval]) -> (u64, u64)
    requires lawful { LawfulRow (length values.now) denominator.now.value row.now }
    ensures lower { (d : IntervalValue) → result.0 ≡ sum_of (carried lower_units (valued (told values.now d) row.now)) }
    ensures upper { (d : IntervalValue) → result.1 ≡ sum_of (carried upper_units (valued (told values.now d) row.now)) }
    ensures bound { result.1 ≤ whole * denominator.now.value }
{
    let (mut lower, mut upper) = (0, 0);
    for branch in row {
        let weight = u64::from(branch.weight);
        let ends = &values[branch.target];
        lower += weight * u64::from(ends.lower.units());
        upper += weight * u64::from(ends.upper.units());
    }
    (lower, upper)
}

impl Backup for BothEnds {
    type Value = Interval;

    ghost chosen = { λ x. better_ends x.preference };

    ghost mixed = { λ x. mixed_ends };

    fn better(&self, a: Interval, b: Interval) -> Interval {
        Interval {
            lower: better_part(self.preference, a.lower, b.lower),
            upper: better_part(self.preference, a.upper, b.upper),
        }
    }

    fn mix(&self, denominator: &Denominator, row: &[Branch], values: &[Interval]) -> Interval {
        let (lower, upper) = weighted_sums(denominator, row, values);
        // Rounded up as in a rule of parts: a method for any number would have to say what it gives where the addition overflows.
        let last = u64::from(denominator.value) - 1;
        Interval {
            lower: denominator.part(lower),
            upper: denominator.part(upper + last),
        }
    }
}
