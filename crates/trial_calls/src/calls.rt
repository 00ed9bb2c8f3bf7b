use model::source::Source;
use records::comparison::Comparison;
use rules::part::Part;
use trial::aim::Aim;
use trial::fault::TrialFault;
use trial::trial::Trial;
use trial::verdict::Verdict;

// What is asked of a trial: a query, by its marks and what it asks for; how many rounds, in two turns; and at which state, and
// how its probability compares with a bound.
#[derive(Clone, Copy)]
pub(crate) struct Question<'a> {
    pub(crate) left: &'a [u8],
    pub(crate) right: &'a [u8],
    pub(crate) aim: Aim,
    pub(crate) counts: [u64; 2],
    pub(crate) state: usize,
    pub(crate) comparison: Comparison,
    pub(crate) bound: u64,
}

// What a query answers at a state after some rounds: its two ends, its rounds, and a verdict.
#[derive(Drop)]
pub(crate) struct Answer {
    pub(crate) lower: Part,
    pub(crate) upper: Part,
    pub(crate) rounds: u64,
    pub(crate) verdict: Verdict,
}

impl<'a> Question<'a> {
    // Makes a trial, starts the query, advances it twice, and asks for the ends and a verdict at the state.
    pub(crate) fn ask<S: Source>(&self, source: &S) -> Result<Answer, TrialFault> {
        let mut trial = Trial::over(source);
        trial.start(self.left, self.right, self.aim)?;
        for count in self.counts {
            trial.advance(count)?;
        }
        let (lower, upper, rounds) = trial.ends(self.state)?;
        let verdict = trial.verdict(self.state, self.comparison, self.bound)?;
        Ok(Answer {
            lower,
            upper,
            rounds,
            verdict,
        })
    }
}
