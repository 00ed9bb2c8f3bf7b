ghost use Rattle.std.specs.Prelude.{◌≡◌};
ghost use Rattle.trial.specs.Aims.{preference_of, aim_for};

use records::comparison::Comparison;
use rules::parts::Parts;
use rules::preference::Preference;
use rules::rounding::Rounding;

// What a query asks for: the largest value among all adversaries, or the smallest. It is a type beside `Preference`, which is
// of the two values that a rule compares the one it keeps: a rule of marks has a preference and no query, and what a comparison
// gives is an aim.
#[derive(Clone, Copy, PartialEq, Eq, Debug)]
pub enum Aim {
    Best,
    Worst,
}

// Which value the rounds of a query prefer.
impl From<Aim> for Preference {
    ghost from_gives = { λ aim preference. preference ≡ preference_of aim };

    fn from(aim: Aim) -> Preference {
        match aim {
            Aim::Best => Preference::Greater,
            Aim::Worst => Preference::Lesser,
        }
    }
}

// The aim that a comparison is decided by.
impl From<Comparison> for Aim {
    ghost from_gives = { λ comparison aim. aim ≡ aim_for comparison };

    fn from(comparison: Comparison) -> Aim {
        match comparison {
            Comparison::Below | Comparison::AtMost => Aim::Best,
            Comparison::Above | Comparison::AtLeast => Aim::Worst,
        }
    }
}

impl Aim {
    // The rule of parts of a query's rounds: rounded down for its lower end, and up for its upper one.
    pub(crate) fn rule(self, rounding: Rounding) -> Parts
        ensures rounding { result.rounding ≡ rounding }
        ensures preference { result.preference ≡ preference_of self }
    {
        Parts {
            rounding,
            preference: self.into(),
        }
    }
}
