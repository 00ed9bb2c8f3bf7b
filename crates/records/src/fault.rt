ghost use Rattle.std.specs.Prelude.{◌≡◌, Some};
ghost use Rattle.records.specs.Faults.{formula_fault_number, formula_fault_place, judge_fault_number, judge_fault_place, judge_refused_at};
ghost use Rattle.records.specs.declared.fault.JudgeFault.TheVariants.{Formula};

use std::fmt;

// Why a text is refused as a formula: it is none, one of its numbers is too large, it is too deep, it has too many
// formulas or too few records are lent, or an until without steps stands under none of its three bounds.
#[derive(Clone, Copy, PartialEq, Eq, Debug)]
pub enum FormulaFault {
    NoFormula { place: usize },
    Number { place: usize },
    Depth,
    Records,
    Until { place: usize },
}

// Why a text is not judged: its length, a formula's fault, too few bytes of scratch, or an output that has not a byte for each state.
#[derive(Clone, Copy, PartialEq, Eq, Debug)]
pub enum JudgeFault {
    Length,
    Formula(FormulaFault),
    Scratch,
    Out,
}

// A formula's fault is one of its judge.
impl From<FormulaFault> for JudgeFault {
    ghost from_gives = { λ e r. r ≡ Formula e };

    fn from(e: FormulaFault) -> JudgeFault {
        JudgeFault::Formula(e)
    }
}

impl FormulaFault {
    // The number of the fault, by a match: some faults carry a place, so the variants cannot be numbered.
    pub fn number(&self) -> u8
        ensures { result ≡ formula_fault_number self.now }
    {
        match self {
            FormulaFault::NoFormula { .. } => 21,
            FormulaFault::Number { .. } => 22,
            FormulaFault::Depth => 23,
            FormulaFault::Records => 24,
            FormulaFault::Until { .. } => 25,
        }
    }

    // The place of the fault in the text: where there is none, 0, as the table of refusals gives it, and so no Option.
    pub fn place(&self) -> usize
        ensures { result ≡ formula_fault_place self.now }
    {
        match self {
            FormulaFault::NoFormula { place }
            | FormulaFault::Number { place }
            | FormulaFault::Until { place } => *place,
            FormulaFault::Depth | FormulaFault::Records => 0,
        }
    }
}

impl JudgeFault {
    // The number of the fault, by a match: a formula's fault has that of its kind.
    pub fn number(&self) -> u8
        ensures { result ≡ judge_fault_number self.now }
    {
        match self {
            JudgeFault::Length => 20,
            JudgeFault::Formula(fault) => fault.number(),
            JudgeFault::Scratch => 26,
            JudgeFault::Out => 27,
        }
    }

    // The place of the fault in the text: where there is none, 0, as the table of refusals gives it, and so no Option.
    pub fn place(&self) -> usize
        ensures { result ≡ judge_fault_place self.now }
    {
        match self {
            JudgeFault::Formula(fault) => fault.place(),
            JudgeFault::Length | JudgeFault::Scratch | JudgeFault::Out => 0,
        }
    }
}

// What the refusal of a judge begins with: the number and the place of its fault.
impl fmt::Display for JudgeFault {
    ghost output = { λ f. Some (judge_refused_at f) };

    fn fmt<W: fmt::Write>(&self, f: &mut fmt::Formatter<W>) -> fmt::Result {
        let number = self.number();
        let place = self.place();
        write!(f, "refused {number} place {place}")
    }
}
