ghost use Rattle.std.specs.Prelude.{◌≡◌};
ghost use Rattle.layers.specs.HoldAnswers.{fault_number};

// Why a state is not held: there is no such state. The fault has its fixed number.
#[derive(Clone, Copy, PartialEq, Eq, Debug)]
pub enum HoldFault {
    Held = 43,
}

impl HoldFault {
    // The number of the question that was answered no.
    pub fn number(&self) -> u8
        ensures { result ≡ fault_number self.now }
    {
        *self as u8
    }
}
