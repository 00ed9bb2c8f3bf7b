use records::comparison::Comparison;
use records::fault::JudgeFault;
use records::record::Record;
use rules::part::Part;
use trial::aim::Aim;
use trial::fault::TrialFault;
use trial::verdict::Verdict;

// A call on a trial: what it is given, with buffers of its own where it reads or writes any, and its answer, which is None until
// the call is played.
#[derive(Drop, PartialEq, Eq, Debug)]
pub enum Call {
    Start {
        left: Vec<u8>,
        right: Vec<u8>,
        aim: Aim,
        answer: Option<Result<(), TrialFault>>,
    },
    Advance {
        count: u64,
        answer: Option<Result<(), TrialFault>>,
    },
    Ends {
        state: usize,
        answer: Option<Result<(Part, Part, u64), TrialFault>>,
    },
    Verdict {
        state: usize,
        comparison: Comparison,
        bound: u64,
        answer: Option<Result<Verdict, TrialFault>>,
    },
    Judge {
        text: Vec<u8>,
        records: Vec<Record>,
        scratch: Vec<u8>,
        out: Vec<u8>,
        answer: Option<Result<usize, JudgeFault>>,
    },
}
