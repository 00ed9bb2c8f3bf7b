ghost use Rattle.rules.specs.Parts.{in_parts, mix_rounded, prefers_part};
ghost use Rattle.rules.specs.PartsLemmas.{parts_lawful};

use crate::denominator::Denominator;
use crate::part::Part;
use crate::preference::Preference;
use crate::rounding::Rounding;
use crate::rule::Rule;
use crate::sum::weighted_sum;
use model::branch::Branch;

// The rule of parts: the mix is the weighted mean, rounded down or up.
#[derive(Clone, Copy)]
pub struct Parts {
    pub rounding: Rounding,
    pub preference: Preference,
}

impl Rule for Parts {
    type Value = Part;

    ghost preferred = { λ x. prefers_part x.preference };

    ghost mixed = { λ x. in_parts (mix_rounded x.rounding) };

    ghost lawful = { λ x. parts_lawful x.rounding x.preference };

    fn prefers(&self, a: Part, b: Part) -> bool {
        self.preference.prefers(a, b)
    }

    fn mix(&self, denominator: &Denominator, row: &[Branch], values: &[Part]) -> Part {
        let sum = weighted_sum(denominator, row, values);
        match self.rounding {
            Rounding::Down => denominator.part(sum),
            Rounding::Up => denominator.part(sum + (u64::from(denominator.value) - 1)),
        }
    }
}
