ghost use Rattle.std.specs.Prelude.{◌≡◌, IfOk, string_bytes};
ghost use Rattle.formula_text.specs.Words.{formula_words, judge_words, judge_line, judge_mark, judge_refusal};

use printing::caret::marked;
use records::fault::{FormulaFault, JudgeFault};
use std::alloc::{AllocError, Global};

// The words on a formula's fault: what is wrong, and what to do.
fn formula_words(fault: &FormulaFault) -> &'static str
    ensures { result.now ≡ formula_words fault.now }
{
    match fault {
        FormulaFault::NoFormula { .. } => {
            "no formula goes on like this; write true, a letter from a to p, !f, (f&g), or P, a comparison, a bound and [Xf], [fUg] or [fU<=STEPSg], with no blanks"
        }
        FormulaFault::Number { .. } => {
            "this number is too large; a bound is at most 1000000000, and an until has at most 10000 steps"
        }
        FormulaFault::Depth => "the formula is more than 32 deep; take levels out",
        FormulaFault::Records => {
            "there are more than 64 formulas in this one, or more than there are records; take some out"
        }
        FormulaFault::Until { .. } => {
            "an until without steps stands only under >0, <=0 or >=1000000000; change the bound, or give the until steps, as in U<=100"
        }
    }
}

// The words on a judge's fault. It is no `Refusal`, as its line tells a place beside the words.
pub fn judge_words(fault: &JudgeFault) -> &'static str
    ensures { result.now ≡ judge_words fault.now }
{
    match fault {
        JudgeFault::Length => "a formula has 1 to 1024 bytes; write one of that length",
        JudgeFault::Formula(fault) => formula_words(fault),
        JudgeFault::Scratch => {
            "the scratch has not a byte for each state of each formula; lend it that many bytes"
        }
        JudgeFault::Out => {
            "the output has not a byte for each state; lend it just as many bytes as there are states"
        }
    }
}

// The line of a refusal: its number, its place and its words. Here and below `heap` and `fault` are arguments: a caller has a fault
// of the judge and wants one text of it, and a struct of the two would be made for that one call.
pub fn judge_line(heap: Global, fault: &JudgeFault) -> Result<String, AllocError>
    ensures { IfOk result (λ s. string_bytes s ≡ judge_line fault.now) }
{
    let words = judge_words(fault);
    format!(in heap; "{fault}: {words}")
}

// The text with a caret under the place of a formula's fault; nothing for a fault that the text does not have as a formula.
fn judge_mark(heap: Global, text: &[u8], fault: &JudgeFault) -> Result<String, AllocError>
    ensures { IfOk result (λ s. string_bytes s ≡ judge_mark fault.now text.now) }
{
    match fault {
        JudgeFault::Formula(fault) => marked(heap, text, fault.place()),
        JudgeFault::Length | JudgeFault::Scratch | JudgeFault::Out => Ok(String::new(heap)),
    }
}

// The refusal of a text: its line, and then the text with the caret.
pub fn judge_refusal(heap: Global, text: &[u8], fault: &JudgeFault) -> Result<String, AllocError>
    ensures { IfOk result (λ s. string_bytes s ≡ judge_refusal fault.now text.now) }
{
    let line = judge_line(heap, fault)?;
    let mark = judge_mark(heap, text, fault)?;
    format!(in heap; "{line}\n{mark}")
}
