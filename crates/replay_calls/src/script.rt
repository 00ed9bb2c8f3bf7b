use records::comparison::Comparison;
use records::fault::JudgeFault;
use records::record::Record;
use replay::call::Call;
use rules::part::Part;
use std::alloc::{AllocError, Global};
use trial::aim::Aim;
use trial::fault::TrialFault;
use trial::verdict::Verdict;

// What a judge's call is given, or has afterwards: its text, its buffers and its answer.
#[derive(Clone, Copy)]
pub(crate) struct Judgement<'a> {
    pub(crate) text: &'a [u8],
    pub(crate) records: &'a [Record],
    pub(crate) scratch: &'a [u8],
    pub(crate) out: &'a [u8],
    pub(crate) answer: Option<Result<usize, JudgeFault>>,
}

impl<'a> Judgement<'a> {
    // The call with buffers of its own.
    pub(crate) fn call(&self, heap: Global) -> Result<Call, AllocError> {
        Ok(Call::Judge {
            text: Vec::from_slice(heap, self.text)?,
            records: Vec::from_slice(heap, self.records)?,
            scratch: Vec::from_slice(heap, self.scratch)?,
            out: Vec::from_slice(heap, self.out)?,
            answer: self.answer,
        })
    }
}

// Calls to be played, and beside them the same calls as they are wanted afterwards: two lists and no list of pairs, since a
// replay is lent the given calls alone.
#[derive(Drop)]
pub(crate) struct Script {
    pub(crate) heap: Global,
    pub(crate) given: Vec<Call>,
    pub(crate) wanted: Vec<Call>,
}

impl Script {
    // No calls yet.
    pub(crate) fn new(heap: Global) -> Script {
        Script {
            heap,
            given: Vec::new(heap),
            wanted: Vec::new(heap),
        }
    }

    // One more call, and how it is wanted.
    fn push(&mut self, given: Call, wanted: Call) -> Result<(), AllocError> {
        self.given.push(given)?;
        self.wanted.push(wanted)?;
        Ok(())
    }

    // One more call, given with no answer and wanted with this one.
    fn add<A, F: Fn(Option<A>) -> Call>(&mut self, answer: A, call: F) -> Result<(), AllocError>
        requires { F.IsAlwaysCallable call }
    {
        let given = call(None);
        let wanted = call(Some(answer));
        self.push(given, wanted)
    }

    // A start with these marks and this aim.
    fn start_with(
        &self,
        left: &[u8],
        right: &[u8],
        aim: Aim,
        answer: Option<Result<(), TrialFault>>,
    ) -> Result<Call, AllocError> {
        Ok(Call::Start {
            left: Vec::from_slice(self.heap, left)?,
            right: Vec::from_slice(self.heap, right)?,
            aim,
            answer,
        })
    }

    // A start, and what it is to answer.
    pub(crate) fn start(
        &mut self,
        left: &[u8],
        right: &[u8],
        aim: Aim,
        answer: Result<(), TrialFault>,
    ) -> Result<(), AllocError> {
        let given = self.start_with(left, right, aim, None)?;
        let wanted = self.start_with(left, right, aim, Some(answer))?;
        self.push(given, wanted)
    }

    // An advance, and what it is to answer.
    pub(crate) fn advance(
        &mut self,
        count: u64,
        answer: Result<(), TrialFault>,
    ) -> Result<(), AllocError> {
        self.add(answer, |answer| Call::Advance { count, answer })
    }

    // A call for ends, and what it is to answer.
    pub(crate) fn ends(
        &mut self,
        state: usize,
        answer: Result<(Part, Part, u64), TrialFault>,
    ) -> Result<(), AllocError> {
        self.add(answer, |answer| Call::Ends { state, answer })
    }

    // A call for a verdict, and what it is to answer.
    pub(crate) fn verdict(
        &mut self,
        state: usize,
        comparison: Comparison,
        bound: u64,
        answer: Result<Verdict, TrialFault>,
    ) -> Result<(), AllocError> {
        self.add(
            answer,
            |answer| Call::Verdict {
                state,
                comparison,
                bound,
                answer,
            },
        )
    }

    // A judge with this text and these buffers, and what it is to be afterwards.
    pub(crate) fn judge(
        &mut self,
        given: Judgement<'_>,
        wanted: Judgement<'_>,
    ) -> Result<(), AllocError> {
        let before = given.call(self.heap)?;
        let after = wanted.call(self.heap)?;
        self.push(before, after)
    }
}
