ghost use Rattle.std.specs.Prelude.{◌≡◌, Some, IfOk, string_bytes, vec_items};
ghost use Rattle.calls_text.specs.Refusals.{refused_text};
ghost use Rattle.calls_text.specs.AnswerTexts.{done_text, pair_text, ends_text, verdict_word, told_ends, verdict_text, judge_text};

use crate::record_text::{Row, record_lines};
use crate::refusals::{Told, refused_text};
use formula_text::words::judge_line;
use printing::words::Refusal;
use records::fault::JudgeFault;
use records::record::Record;
use rules::part::Part;
use std::alloc::{AllocError, Global};
use std::fmt;
use trial::fault::TrialFault;
use trial::verdict::Verdict;

// What is printed where no more is answered than that a call, or a state to be held, was accepted. Here and below a heap and an
// answer stay two arguments: the heap goes to whatever wants memory, and tells nothing of an answer.
pub(crate) fn done_text<F: Refusal + Copy>(
    heap: Global,
    answer: Result<(), F>,
) -> Result<String, AllocError>
    ensures { IfOk result (λ s. string_bytes s ≡ done_text (λ f. refused_text (F.number f) (F.words f)) answer) }
{
    match answer {
        Ok(()) => String::from_str(heap, "ok\n"),
        Err(fault) => refused_text(heap, &fault),
    }
}

// A lower and an upper end, and after how many rounds.
#[derive(Clone, Copy)]
struct Pair((Part, Part, u64));

impl fmt::Display for Pair {
    ghost output = { λ p. Some (pair_text p.0) };

    fn fmt<W: fmt::Write>(&self, f: &mut fmt::Formatter<W>) -> fmt::Result {
        let (lower, upper, rounds) = self.0;
        let lower = lower.units();
        let upper = upper.units();
        write!(f, " {lower} {upper} after {rounds}")
    }
}

// What is printed of the ends.
pub(crate) fn ends_text(
    heap: Global,
    answer: Result<(Part, Part, u64), TrialFault>,
) -> Result<String, AllocError>
    ensures { IfOk result (λ s. string_bytes s ≡ ends_text answer) }
{
    match answer {
        Ok(ends) => {
            let pair = Pair(ends);
            format!(in heap; "ends{pair}\n")
        }
        Err(fault) => refused_text(heap, &Told(fault)),
    }
}

// The word of a verdict.
fn verdict_word(verdict: Verdict) -> &'static str
    ensures { result.now ≡ verdict_word verdict }
{
    match verdict {
        Verdict::No => "no",
        Verdict::Yes => "yes",
        Verdict::Undecided => "undecided",
    }
}

// The ends that stand behind a verdict, if they were answered.
#[derive(Clone, Copy)]
struct ToldEnds(Option<Result<(Part, Part, u64), TrialFault>>);

impl fmt::Display for ToldEnds {
    ghost output = { λ t. Some (told_ends t.0) };

    fn fmt<W: fmt::Write>(&self, f: &mut fmt::Formatter<W>) -> fmt::Result {
        match self.0 {
            Some(Ok(ends)) => {
                let pair = Pair(ends);
                write!(f, "{pair}")
            }
            _ => Ok(()),
        }
    }
}

// What is printed of a verdict, with these ends behind it.
pub(crate) fn verdict_text(
    heap: Global,
    ends: Option<Result<(Part, Part, u64), TrialFault>>,
    answer: Result<Verdict, TrialFault>,
) -> Result<String, AllocError>
    ensures { IfOk result (λ s. string_bytes s ≡ verdict_text ends answer) }
{
    match answer {
        Ok(verdict) => {
            let word = verdict_word(verdict);
            let ends = ToldEnds(ends);
            format!(in heap; "verdict {word}{ends}\n")
        }
        Err(fault) => refused_text(heap, &Told(fault)),
    }
}

// What is printed of a judge over so many states: how many records it filled, a line for each, and its output.
pub(crate) fn judge_text(
    heap: Global,
    states: usize,
    records: &[Record],
    scratch: &[u8],
    out: &[u8],
    answer: Result<usize, JudgeFault>,
) -> Result<String, AllocError>
    ensures { IfOk result (λ s. string_bytes s ≡ judge_text states records.now scratch.now out.now answer) }
{
    match answer {
        Ok(count) => {
            let filled = &records[..count.min(records.len())];
            let lines = record_lines(heap, states, filled, scratch)?;
            let row = Row(out);
            format!(in heap; "judge {count} records\n{lines}out {row}\n")
        }
        Err(fault) => {
            let line = judge_line(heap, &fault)?;
            format!(in heap; "{line}\n")
        }
    }
}
