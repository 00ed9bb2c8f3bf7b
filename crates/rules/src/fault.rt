ghost use Rattle.std.specs.Prelude.{◌≡◌};
ghost use Rattle.rules.specs.Faults.{fault_number};

// Why a part is not made: it would be more than the whole.
#[derive(Clone, Copy, PartialEq, Eq, Debug)]
pub enum PartFault {
    Units = 39,
}

impl PartFault {
    // The number of the question that was answered no.
    pub fn number(&self) -> u8
        ensures { result ≡ fault_number self.now }
    {
        *self as u8
    }
}
