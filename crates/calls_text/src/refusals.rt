ghost use Rattle.std.specs.Prelude.{◌≡◌, IfOk, string_bytes};
ghost use Rattle.trial.specs.Faults.{fault_number};
ghost use Rattle.calls_text.specs.Refusals.{trial_words, refused_text};

use printing::words::{Refusal, refusal_line};
use std::alloc::{AllocError, Global};
use trial::fault::TrialFault;

// A trial's fault, to be told: the fault and the trait are of other crates.
#[derive(Clone, Copy)]
pub(crate) struct Told(pub(crate) TrialFault);

impl Refusal for Told {
    ghost number = { λ f. fault_number f.0 };

    ghost words = { λ f. trial_words f.0 };

    // The number of the fault within, which its own crate gives.
    fn number(&self) -> u8 {
        self.0.number()
    }

    fn words(&self) -> &'static str {
        match self.0 {
            TrialFault::Lengths => {
                "each list of marks has a mark for each state; write as many digits as there are states"
            }
            TrialFault::Marks => {
                "a mark is 0 or 1; write 1 for a state in the set, and 0 for any other"
            }
            TrialFault::NoQuery => {
                "no query stands; start one first, and again after a judge, which ends it"
            }
            TrialFault::Rounds => "a query has at most 100000 rounds; advance it by fewer",
            TrialFault::State => {
                "there is no such state; states are numbered from 0 to one below how many there are"
            }
            TrialFault::Bound => "a bound is at most 1000000000, which is the whole; lower it",
            TrialFault::Aim => {
                "< and <= are decided by a query for the best, > and >= by one for the worst; start the other query, or change the comparison"
            }
        }
    }
}

// What is printed of a refusal: its line, with a line feed.
pub(crate) fn refused_text<F: Refusal>(heap: Global, fault: &F) -> Result<String, AllocError>
    ensures { IfOk result (λ s. string_bytes s ≡ refused_text (F.number fault.now) (F.words fault.now)) }
{
    let line = refusal_line(heap, fault)?;
    format!(in heap; "{line}\n")
}
