use ladder::fault::LadderFault;
use printing::words::Refused;
use records::fault::JudgeFault;
use rounds::fault::RoundsFault;
use std::alloc::AllocError;
use std::fmt;
use text::fault::FileFault;
use trial::fault::TrialFault;

// Why a line has no answer: there is no memory, the line asks nothing, or a call refuses it.
#[derive(Debug, Drop)]
pub(crate) enum Failure {
    Memory(AllocError),
    NoQuestion,
    Load(FileFault),
    Ladder(LadderFault),
    Trial(TrialFault),
    Judge(JudgeFault),
    Rounds(RoundsFault),
}

impl From<AllocError> for Failure {
    fn from(error: AllocError) -> Failure {
        Failure::Memory(error)
    }
}

impl From<FileFault> for Failure {
    fn from(fault: FileFault) -> Failure {
        Failure::Load(fault)
    }
}

impl From<LadderFault> for Failure {
    fn from(fault: LadderFault) -> Failure {
        Failure::Ladder(fault)
    }
}

impl From<TrialFault> for Failure {
    fn from(fault: TrialFault) -> Failure {
        Failure::Trial(fault)
    }
}

impl From<JudgeFault> for Failure {
    fn from(fault: JudgeFault) -> Failure {
        Failure::Judge(fault)
    }
}

impl From<RoundsFault> for Failure {
    fn from(fault: RoundsFault) -> Failure {
        Failure::Rounds(fault)
    }
}

// What a refusal of anything but a text begins with: the number of its fault.
fn write_refusal<W: fmt::Write>(f: &mut fmt::Formatter<W>, number: u8) -> fmt::Result {
    write!(f, "refused {number}")
}

impl fmt::Display for Failure {
    fn fmt<W: fmt::Write>(&self, f: &mut fmt::Formatter<W>) -> fmt::Result {
        match self {
            Failure::Memory(_) => f.write_str("no memory"),
            Failure::NoQuestion => f.write_str("no question"),
            Failure::Load(fault) => write!(f, "{}", Refused(*fault)),
            Failure::Ladder(fault) => write_refusal(f, fault.number()),
            Failure::Trial(fault) => write_refusal(f, fault.number()),
            Failure::Judge(fault) => write!(f, "{fault}"),
            Failure::Rounds(fault) => write_refusal(f, fault.number()),
        }
    }
}
