ghost use Rattle.std.specs.Prelude.{◌≡◌, ◌*◌, ◌≤◌, length};
ghost use Rattle.model.specs.Mdp.{LawfulRow};
ghost use Rattle.theory.specs.Mixes.{sum_of, whole};
ghost use Rattle.theory.specs.Rules.{valued};
ghost use Rattle.rules.specs.Values.{told, carried};
ghost use Rattle.rules.specs.Parts.{units_of};
ghost use Rattle.rules.specs.declared.part.Part.{Part as PartValue};

use crate::denominator::Denominator;
use crate::part::Part;
use model::branch::Branch;

// The sum of weight times value over a lawful row: at most the denominator times the whole.
pub(crate) fn weighted_sum(denominator: &Denominator, row: &[Branch], values: &[Part]) -> u64
    requires lawful { LawfulRow (length values.now) denominator.now.value row.now }
    ensures sum { (d : PartValue) → result ≡ sum_of (carried units_of (valued (told values.now d) row.now)) }
    ensures bound { result ≤ whole * denominator.now.value }
{
    let mut sum = 0;
    // One pass over the row: each branch adds its weight times the value of its target.
    for branch in row {
        sum += u64::from(branch.weight) * u64::from(values[branch.target].units);
    }
    sum
}
