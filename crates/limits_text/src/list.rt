ghost use Rattle.std.specs.Prelude.{◌≡◌, map, count_by, IfOk, OnOk, OnErr, string_bytes};
ghost use Rattle.std.specs.Io.KnownBytes.{Appends};
ghost use Rattle.limits_text.specs.Lines.{list_lines};
ghost use Rattle.limits_text.specs.Lists.{is_formula, progress_line, progress_before, AppendsFront, LineReported, LineTorn, ListReported, ListBegun, Writes};

use crate::item::Item;
use crate::outcome::Outcome;
use crate::report::line_report;
use crate::write::write_whole;
use model::source::Source;
use std::alloc::{AllocError, Global};
use std::io;
use std::io::Write;

// The lines of a list.
fn lines_of(heap: Global, list: &[u8]) -> Result<Vec<&[u8]>, AllocError>
    ensures { IfOk result (λ lines. map (λ l. l.now) lines.items ≡ list_lines list.now) }
{
    list.split(|byte| *byte == b'\n').collect(heap)
}

// How many of some lines are formulas.
fn formula_count(lines: &[&[u8]]) -> usize
    ensures { result ≡ count_by is_formula (map (λ l. l.now) lines.now) }
{
    lines
        .iter()
        .filter(|line| Item::from(**line) == Item::Formula)
        .count()
}

// What is told before a formula comes, by its number and how many there are: nothing, if there is only one.
fn progress_text(heap: Global, number: usize, formulas: usize) -> Result<String, AllocError>
    ensures { IfOk result (λ s. string_bytes s ≡ progress_line number formulas) }
{
    if formulas > 1 {
        format!(in heap; "kavzhubo: formula {number} of {formulas}\n")
    } else {
        Ok(String::new(heap))
    }
}

// Tells that a formula comes next.
fn tell<P: Write>(heap: Global, progress: &mut P, number: usize, formulas: usize) -> io::Result<()>
    ensures whole { OnOk result (Appends (P.Write.contents progress.old)
        (P.Write.contents progress.new) (progress_line number formulas)) }
    ensures front { OnErr result (AppendsFront (P.Write.contents progress.old)
        (P.Write.contents progress.new) (progress_line number formulas)) }
{
    let text = progress_text(heap, number, formulas)?;
    write_whole(progress, text.as_bytes())
}

// Tells that a line comes next, if it is a formula.
fn tell_line<P: Write>(
    heap: Global,
    progress: &mut P,
    number: usize,
    formulas: usize,
    line: &[u8],
) -> io::Result<()>
    ensures whole { OnOk result (Appends (P.Write.contents progress.old)
        (P.Write.contents progress.new) (progress_before number formulas line.now)) }
    ensures front { OnErr result (AppendsFront (P.Write.contents progress.old)
        (P.Write.contents progress.new) (progress_before number formulas line.now)) }
{
    match Item::from(line) {
        Item::Formula => tell(heap, progress, number, formulas),
        Item::Heading | Item::Nothing => Ok(()),
    }
}

// Writes the report of a line, and answers what came of its formula, if it is one. The source and a writer are two arguments here
// and below: a writer is lent anew for each line, and a struct that held it would be made for each.
fn report_line<S: Source, W: Write>(
    heap: Global,
    source: &S,
    number: usize,
    line: &[u8],
    out: &mut W,
) -> io::Result<Option<Outcome>>
    ensures whole { IfOk result (λ o. LineReported (S.Source.model source.now) number line.now
        (W.Write.contents out.old) (W.Write.contents out.new) o) }
    ensures torn { OnErr result (LineTorn (S.Source.model source.now) number line.now
        (W.Write.contents out.old) (W.Write.contents out.new)) }
{
    let (report, outcome) = line_report(heap, source, number, line)?;
    write_whole(out, report.as_bytes())?;
    Ok(outcome)
}

// Judges the lines of a list over a source, one after another. The report of each is written before the next is judged, and
// before each formula its number is told where there are several. Answers the outcomes of the formulas. Where there is no memory
// or a write fails, what was written are the reports of the first lines, whole, and at most a beginning of the next.
pub fn report_list<S: Source, W: Write, P: Write>(
    heap: Global,
    source: &S,
    list: &[u8],
    out: &mut W,
    progress: &mut P,
) -> io::Result<Vec<Outcome>>
    ensures whole { IfOk result (λ os.
        Writes (ListReported (S.Source.model source.now) list.now os.items)
        (W.Write.contents out.old) (W.Write.contents out.new)
        (P.Write.contents progress.old) (P.Write.contents progress.new)) }
    ensures begun { OnErr result (Writes (ListBegun (S.Source.model source.now) list.now)
        (W.Write.contents out.old) (W.Write.contents out.new)
        (P.Write.contents progress.old) (P.Write.contents progress.new)) }
{
    let lines = lines_of(heap, list)?;
    let formulas = formula_count(lines.as_slice());
    let mut outcomes = Vec::new(heap);
    for (index, line) in lines.iter().enumerate() {
        tell_line(heap, progress, outcomes.len() + 1, formulas, line)?;
        let outcome = report_line(heap, source, index + 1, line, out)?;
        outcomes.extend(outcome)?;
    }
    Ok(outcomes)
}
