ghost use Rattle.std.specs.Prelude.{◌≡◌};
ghost use Rattle.rounds_text.specs.Refusals.{request_fault_number, request_words};
ghost use Rattle.rounds_text.specs.declared.fault.RequestFault.TheVariants.{Part, Rounds};

use printing::words::Refusal;
use rounds::fault::RoundsFault;
use rules::fault::PartFault;

// Why rounds on given numbers are refused: a number makes no part, or the rounds themselves are refused.
#[derive(Clone, Copy, PartialEq, Eq, Debug)]
pub enum RequestFault {
    Part(PartFault),
    Rounds(RoundsFault),
}

// What is told of it.
impl Refusal for RequestFault {
    ghost number = { request_fault_number };

    ghost words = { request_words };

    // By a match: the cases carry faults of other crates, whose numbers these are.
    fn number(&self) -> u8 {
        match self {
            RequestFault::Part(fault) => fault.number(),
            RequestFault::Rounds(fault) => fault.number(),
        }
    }

    fn words(&self) -> &'static str {
        match self {
            RequestFault::Part(PartFault::Units) =>
                "a value is more than 1000000000, which is the whole; lower it",
            RequestFault::Rounds(RoundsFault::Lengths) =>
                "there are not as many values as states; write one value for each state",
            RequestFault::Rounds(RoundsFault::Count) =>
                "there are more than 100000 rounds; lower their number",
        }
    }
}
