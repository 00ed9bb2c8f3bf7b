ghost use Rattle.std.specs.Prelude.{◌≡◌};
ghost use Rattle.theory.specs.Formulas.{extremal};
ghost use Rattle.formula.specs.Tokens.{meant};
ghost use Rattle.formula.specs.Extremals.{maybe_meant};

use records::comparison::Comparison;

// The largest bound: all units of the whole. The crate of value rules has it too, which a reader does not use; it is no limit of
// a model, and no record needs it.
pub(crate) const WHOLE: u64 = 1_000_000_000;

// The three bounds that an until without steps may have: more than 0, at most 0, and at least the whole.
#[derive(Clone, Copy, PartialEq, Eq, Debug)]
pub enum Extremal {
    OverNone,
    AtMostNone,
    AtLeastWhole,
}

impl Extremal {
    // Which of the three a comparison with a bound is, if it is one.
    pub fn of(comparison: Comparison, bound: u64) -> Option<Extremal>
        ensures { maybe_meant result ≡ extremal (meant comparison) bound }
    {
        match (comparison, bound) {
            (Comparison::Above, 0) => Some(Extremal::OverNone),
            (Comparison::AtMost, 0) => Some(Extremal::AtMostNone),
            (Comparison::AtLeast, WHOLE) => Some(Extremal::AtLeastWhole),
            _ => None,
        }
    }
}
