use crate::chance::{Places, each_state};
use crate::failure::Failure;
use model::source::Source;
use records::comparison::Comparison;
use std::alloc::{AllocError, Global};
use trial::aim::Aim;
use trial::fault::TrialFault;
use trial::trial::Trial;
use trial::verdict::Verdict;

// What a query asks for: its marks, for whom, and how many rounds.
#[derive(Drop)]
pub(crate) struct Query {
    pub(crate) left: Vec<u8>,
    pub(crate) right: Vec<u8>,
    pub(crate) aim: Aim,
    pub(crate) rounds: u64,
}

// The marks that a row of the digits 0 and 1 writes; any other byte stands for itself.
pub(crate) fn marks(heap: Global, digits: &str) -> Result<Vec<u8>, AllocError> {
    digits
        .as_bytes()
        .iter()
        .map(|byte| match byte {
            b'0' => 0,
            b'1' => 1,
            other => *other,
        })
        .collect(heap)
}

impl Query {
    // A trial of the source after this query's start and rounds.
    fn run<'s, S: Source>(&self, source: &'s S) -> Result<Trial<'s, S>, TrialFault> {
        let mut trial = Trial::over(source);
        trial.start(self.left.as_slice(), self.right.as_slice(), self.aim)?;
        trial.advance(self.rounds)?;
        Ok(trial)
    }

    // The ends at each state.
    pub(crate) fn ends<S: Source>(
        &self,
        heap: Global,
        source: &S,
        places: Places,
    ) -> Result<String, Failure> {
        let trial = self.run(source)?;
        each_state(heap, source.states(), places, |state| {
            let (lower, upper, _) = trial.ends(state)?;
            Ok((lower, upper))
        })
    }

    // The verdict at a state on a comparison with a bound. Its words stand here: those of the programs stand in crates of what
    // they print, none of which this program uses.
    pub(crate) fn verdict<S: Source>(
        &self,
        source: &S,
        state: usize,
        comparison: Comparison,
        bound: u64,
    ) -> Result<&'static str, Failure> {
        match self.run(source)?.verdict(state, comparison, bound)? {
            Verdict::No => Ok(" no"),
            Verdict::Yes => Ok(" yes"),
            Verdict::Undecided => Ok(" undecided"),
        }
    }
}
