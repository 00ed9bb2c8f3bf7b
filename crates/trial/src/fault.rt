ghost use Rattle.std.specs.Prelude.{◌≡◌};
ghost use Rattle.trial.specs.Faults.{fault_number};

// Why a call on a trial is refused: a list of marks has not a byte for each state, or has a byte that is neither 0 nor 1; no
// query stands; there would be too many rounds; there is no such state; the bound is more than the whole; or the
// comparison does not go with what the query asks for.
#[derive(Clone, Copy, PartialEq, Eq, Debug)]
pub enum TrialFault {
    Lengths = 30,
    Marks = 31,
    NoQuery = 32,
    Rounds = 33,
    State = 34,
    Bound = 35,
    Aim = 36,
}

impl TrialFault {
    // The number of the question that was answered no.
    pub fn number(&self) -> u8
        ensures { result ≡ fault_number self.now }
    {
        *self as u8
    }
}
