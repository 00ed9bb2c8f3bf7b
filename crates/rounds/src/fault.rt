ghost use Rattle.std.specs.Prelude.{◌≡◌};
ghost use Rattle.rounds.specs.Refusals.{fault_number};

// Why rounds are refused: a list is not as long as there are states, or there would be too many rounds.
#[derive(Clone, Copy, PartialEq, Eq, Debug)]
pub enum RoundsFault {
    Lengths = 37,
    Count = 38,
}

impl RoundsFault {
    // The number of the question that was answered no.
    pub fn number(&self) -> u8
        ensures { result ≡ fault_number self.now }
    {
        *self as u8
    }
}
