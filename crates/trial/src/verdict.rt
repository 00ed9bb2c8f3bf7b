ghost use Rattle.std.specs.Prelude.{◌≡◌};
ghost use Rattle.trial.specs.VerdictBytes.{verdict_number, verdict_by};

// What is said of a state: no, yes, or neither.
#[derive(Clone, Copy, PartialEq, Eq, Debug)]
pub enum Verdict {
    No = 0,
    Yes = 1,
    Undecided = 2,
}

impl Verdict {
    // The number of the verdict.
    pub fn number(self) -> u8
        ensures { result ≡ verdict_number self }
    {
        self as u8
    }

    // The verdict on a state that is sure, possible but not sure, or neither.
    pub(crate) fn by(sure: bool, possible: bool) -> Verdict
        ensures { result ≡ verdict_by sure possible }
    {
        match (sure, possible) {
            (true, _) => Verdict::Yes,
            (false, true) => Verdict::Undecided,
            (false, false) => Verdict::No,
        }
    }
}
