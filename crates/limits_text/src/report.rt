ghost use Rattle.std.specs.Prelude.{◌≡◌, ℕ, ◌++◌, map, length, IfOk, string_bytes, codes, Option};
ghost use Rattle.std.specs.Option.{option_map};
ghost use Rattle.theory.specs.Found.{TwoEnds};
ghost use Rattle.trial.specs.PathEnds.{Told};
ghost use Rattle.printing.specs.Carets.{shown};
ghost use Rattle.limits_text.specs.Outcomes.{counts_of, outcome_of};
ghost use Rattle.limits_text.specs.Reports.{formula_report, refusal_report, ReportAnswer, numbered, LineAnswer};

use crate::item::Item;
use crate::outcome::{Counts, Outcome};
use crate::table::table;
use formula_text::words::judge_refusal;
use model::source::Source;
use printing::caret::shown_line;
use records::fault::JudgeFault;
use records::record::BLANK;
use std::alloc::{AllocError, Global};
use trial::judge::judge_with_ends;
use trial::two_ends::Ends;

// The report of a formula by its text, its row of verdict bytes, and the ends that this was read off if there are any. Here and
// below `heap` and `text` are two arguments: the heap goes to whatever wants memory and is no part of a text. The clause, as those
// of a table, holds of whatever ends `two` are told: a ghost field is a fact over the fields of its struct, and `two` is in none.
fn formula_report(
    heap: Global,
    text: &[u8],
    row: &[u8],
    ends: Option<&Ends>,
) -> Result<(String, Outcome), AllocError>
    ensures report { (two : Option TwoEnds) → Told (length row.now) two (option_map (λ x. x.now) ends.entry) → IfOk result (λ r. string_bytes r.0 ≡ formula_report (map shown text.now) row.now two) }
    ensures outcome { IfOk result (λ r. r.1 ≡ outcome_of (counts_of row.now)) }
{
    let formula = shown_line(heap, text)?;
    let table = table(heap, row, ends)?;
    let counts = Counts::of(row);
    let report = format!(in heap; "{formula}\n{table}{counts}\n")?;
    Ok((report, counts.outcome()))
}

// The report of a text that is refused.
fn refusal_report(heap: Global, fault: &JudgeFault, text: &[u8]) -> Result<String, AllocError>
    ensures { IfOk result (λ s. string_bytes s ≡ refusal_report fault.now text.now) }
{
    let refusal = judge_refusal(heap, text, fault)?;
    format!(in heap; "{refusal}\n")
}

// What is printed of the text of a formula, judged over a source, and what came of it.
pub fn report<S: Source>(
    heap: Global,
    source: &S,
    text: &[u8],
) -> Result<(String, Outcome), AllocError>
    ensures { IfOk result (λ r. ReportAnswer (S.Source.model source.now) text.now (string_bytes r.0) r.1) }
{
    let states = source.states();
    // No formula has more records, so an array of a fixed length does.
    let mut records = [BLANK; 64];
    let mut scratch = vec![in heap; 0u8; 64 * states]?;
    let mut row = vec![in heap; 0u8; states]?;
    let judged = judge_with_ends(
        source,
        text,
        &mut records,
        scratch.as_mut_slice(),
        row.as_mut_slice(),
    );
    match judged {
        Ok(judged) => formula_report(heap, text, row.as_slice(), judged.ends.as_ref()),
        Err(fault) => Ok((refusal_report(heap, &fault, text)?, Outcome::Refused)),
    }
}

// The report of the line with this number: a refusal tells the line.
fn numbered(
    heap: Global,
    number: usize,
    outcome: Outcome,
    report: String,
) -> Result<String, AllocError>
    ensures { IfOk result (λ s. string_bytes s ≡ numbered number outcome (string_bytes report)) }
{
    if outcome == Outcome::Refused {
        format!(in heap; "line {number}: {report}")
    } else {
        Ok(report)
    }
}

// What is printed of the line of a list that has this number, from 1, and what came of its formula, if it is one.
pub fn line_report<S: Source>(
    heap: Global,
    source: &S,
    number: usize,
    line: &[u8],
) -> Result<(String, Option<Outcome>), AllocError>
    ensures { IfOk result (λ r. LineAnswer (S.Source.model source.now) number line.now (string_bytes r.0) r.1) }
{
    match Item::from(line) {
        Item::Nothing => Ok((String::new(heap), None)),
        Item::Heading => {
            let mut heading = shown_line(heap, line)?;
            heading.push_str("\n")?;
            Ok((heading, None))
        }
        Item::Formula => {
            let (report, outcome) = report(heap, source, line)?;
            let report = numbered(heap, number, outcome, report)?;
            Ok((report, Some(outcome)))
        }
    }
}
