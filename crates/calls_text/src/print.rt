ghost use Rattle.std.specs.Prelude.{◌≡◌, ℕ, ◌∷◌, ◌++◌, List, None, IfOk, OnOk, string_bytes};
ghost use Rattle.replay.specs.declared.call.Call.{Call as Calls};
ghost use Rattle.replay.specs.declared.call.Call.TheVariants.{Ends};
ghost use Rattle.calls_text.specs.Prints.{kept_text, own_ends, other_ends, printed};

use crate::answer_text::{done_text, ends_text, judge_text, verdict_text};
use crate::refusals::Told;
use model::source::Source;
use replay::call::Call;
use rules::part::Part;
use std::alloc::{AllocError, Global};
use trial::fault::TrialFault;
use trial::verdict::Verdict;

// The ends at a state that were answered, or why they were not.
#[derive(Clone, Copy)]
pub(crate) struct Kept {
    pub(crate) state: usize,
    pub(crate) answer: Result<(Part, Part, u64), TrialFault>,
}

// A printer of the answers of calls. The last ends are kept back with their state until the next call: a verdict at that state
// is told with them.
#[derive(Drop)]
struct Printer {
    heap: Global,
    out: String,
    kept: Option<Kept>,
}

impl Printer {
    // Tells the ends that were kept back, and then this text.
    fn tell(&mut self, text: &str) -> Result<(), AllocError>
        ensures out { OnOk result (string_bytes self.new.out ≡ string_bytes self.old.out ++ (kept_text self.old.kept ++ text.now)) }
        ensures kept { OnOk result (self.new.kept ≡ None) }
    {
        if let Some(kept) = self.kept.take() {
            let ends = ends_text(self.heap, kept.answer)?;
            self.out.push_str(ends.as_str())?;
        }
        self.out.push_str(text)?;
        Ok(())
    }

    // The ends that were kept back, if they are those of this state: they are kept no longer.
    fn take_ends(&mut self, state: usize) -> Option<Result<(Part, Part, u64), TrialFault>>
        ensures ends { result ≡ own_ends state self.old.kept }
        ensures kept { self.new.kept ≡ other_ends state self.old.kept }
        ensures out { self.new.out ≡ self.old.out }
    {
        match self.kept {
            Some(kept) if kept.state == state => {
                self.kept = None;
                Some(kept.answer)
            }
            _ => None,
        }
    }

    // Tells the ends that were kept back, and keeps these, if they were answered.
    fn keep(
        &mut self,
        state: usize,
        answer: Option<Result<(Part, Part, u64), TrialFault>>,
    ) -> Result<(), AllocError>
        ensures { OnOk result ((n : ℕ) (calls : List Calls) → string_bytes self.new.out ++ printed n self.new.kept calls ≡ string_bytes self.old.out ++ printed n self.old.kept (Ends state answer ∷ calls)) }
    {
        if let Some(answer) = answer {
            self.tell("")?;
            self.kept = Some(Kept { state, answer });
        }
        Ok(())
    }

    // Tells what a call over so many states answered. A call that is not played has nothing to tell.
    fn call(&mut self, states: usize, call: &Call) -> Result<(), AllocError>
        ensures { OnOk result ((calls : List Calls) → string_bytes self.new.out ++ printed states self.new.kept calls ≡ string_bytes self.old.out ++ printed states self.old.kept (call.now ∷ calls)) }
    {
        match call {
            Call::Start {
                answer: Some(answer),
                ..
            }
            | Call::Advance {
                answer: Some(answer),
                ..
            } => {
                let text = done_text(self.heap, answer.map_err(Told))?;
                self.tell(text.as_str())
            }
            Call::Ends { state, answer } => self.keep(*state, *answer),
            Call::Verdict {
                state,
                answer: Some(answer),
                ..
            } => {
                let ends = self.take_ends(*state);
                let text = verdict_text(self.heap, ends, *answer)?;
                self.tell(text.as_str())
            }
            Call::Judge {
                records,
                scratch,
                out,
                answer: Some(answer),
                ..
            } => {
                let text = judge_text(
                    self.heap,
                    states,
                    records.as_slice(),
                    scratch.as_slice(),
                    out.as_slice(),
                    *answer,
                )?;
                self.tell(text.as_str())
            }
            _ => Ok(()),
        }
    }
}

// Prints what calls of a trial of the source answered, one after another.
pub fn answers_text<S: Source>(
    heap: Global,
    source: &S,
    calls: &[Call],
) -> Result<String, AllocError>
    ensures { IfOk result (λ s. string_bytes s ≡ printed (S.Source.model source.now).states None calls.now) }
{
    let states = source.states();
    let mut printer = Printer {
        heap,
        out: String::new(heap),
        kept: None,
    };
    for call in calls {
        printer.call(states, call)?;
    }
    printer.tell("")?;
    Ok(printer.out)
}
