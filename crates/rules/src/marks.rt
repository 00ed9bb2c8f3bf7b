ghost use Rattle.theory.specs.Mixes.{mix_marks};
ghost use Rattle.rules.specs.Marks.{prefers_mark};
ghost use Rattle.rules.specs.MarkLaws.{marks_lawful};

use crate::denominator::Denominator;
use crate::preference::Preference;
use crate::rule::Rule;
use model::branch::Branch;

// The rule of marks: a row is mixed to yes where one of its branches leads to a yes. Yes is the greater of the two.
#[derive(Clone, Copy)]
pub struct Marks {
    pub preference: Preference,
}

impl Rule for Marks {
    type Value = bool;

    ghost preferred = { λ x. prefers_mark x.preference };

    ghost mixed = { λ x. mix_marks };

    ghost lawful = { λ x. marks_lawful x.preference };

    fn prefers(&self, a: bool, b: bool) -> bool {
        self.preference.prefers(a, b)
    }

    fn mix(&self, _denominator: &Denominator, row: &[Branch], values: &[bool]) -> bool {
        row.iter().any(|branch| values[branch.target])
    }
}
