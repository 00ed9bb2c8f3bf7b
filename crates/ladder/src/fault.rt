ghost use Rattle.std.specs.Prelude.{◌≡◌};
ghost use Rattle.ladder.specs.Refusals.{fault_number};

// Why a ladder is refused: its rungs, its denominator or its weight is out of range. Each has its fixed number.
#[derive(Clone, Copy, PartialEq, Eq, Debug)]
pub enum LadderFault {
    Rungs = 40,
    Denominator = 41,
    Weight = 42,
}

impl LadderFault {
    // The number of the question that was answered no.
    pub fn number(&self) -> u8
        ensures { result ≡ fault_number self.now }
    {
        *self as u8
    }
}
