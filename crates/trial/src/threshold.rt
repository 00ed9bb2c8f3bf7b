ghost use Rattle.std.specs.Prelude.{◌≡◌};
ghost use Rattle.formula.specs.Tokens.{meant};
ghost use Rattle.theory.specs.Verdicts.{fits, harder_end as harder, easier_end as easier};
ghost use Rattle.trial.specs.VerdictBytes.{read_verdict};

use crate::verdict::Verdict;
use records::comparison::Comparison;
use rounds::interval::Interval;
use rules::part::Part;

// What a probability is asked: how it compares with a bound, in units.
#[derive(Clone, Copy)]
pub(crate) struct Threshold {
    pub(crate) comparison: Comparison,
    pub(crate) bound: u64,
}

impl Threshold {
    // Does x compare with the bound so?
    fn fits(self, x: u64) -> bool
        ensures { result ≡ fits (meant self.comparison) x self.bound }
    {
        match self.comparison {
            Comparison::Below => x < self.bound,
            Comparison::AtMost => x <= self.bound,
            Comparison::Above => x > self.bound,
            Comparison::AtLeast => x >= self.bound,
        }
    }

    // The end that fits less easily, and the other one.
    fn ends_by(self, ends: Interval) -> (Part, Part)
        ensures first { result.0.units ≡ harder (meant self.comparison) ends.lower.units ends.upper.units }
        ensures second { result.1.units ≡ easier (meant self.comparison) ends.lower.units ends.upper.units }
    {
        match self.comparison {
            Comparison::Below | Comparison::AtMost => (ends.upper, ends.lower),
            Comparison::Above | Comparison::AtLeast => (ends.lower, ends.upper),
        }
    }

    // The verdict that is read off two ends: yes if the end that fits less easily fits, no if the other does not.
    pub(crate) fn read_off(self, ends: Interval) -> Verdict
        ensures { result ≡ read_verdict (meant self.comparison) self.bound ends.lower.units ends.upper.units }
    {
        let (harder, easier) = self.ends_by(ends);
        Verdict::by(
            self.fits(u64::from(harder.units())),
            self.fits(u64::from(easier.units())),
        )
    }
}
