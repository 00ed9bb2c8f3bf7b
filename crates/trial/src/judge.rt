ghost use Rattle.std.specs.Prelude.{◌≡◌, ◌*◌, List, [], length, Some, ◌==◌, IfOk, IfSome};
ghost use Rattle.std.specs.List.{count_by};
ghost use Rattle.theory.specs.Formulas.{Formula};
ghost use Rattle.records.specs.declared.comparison.Comparison.{Comparison as Code};
ghost use Rattle.trial.specs.Judging.{counted_each, rows_of, lent, JudgeResult};
ghost use Rattle.trial.specs.PathEnds.{Told, ends_of_last};
ghost use Rattle.trial.specs.JudgedEnds.{records_of, EndsTold, BoundFormulaOf};
ghost use Rattle.trial.specs.Meanings.{JudgeMeans};
ghost use Rattle.trial.specs.VerdictBytes.{verdict_number};
ghost use Rattle.trial.specs.Evaluation.{row_at, HasRow, Needs, row_by, ends_by, Chained};

use crate::path_ends::next_ends;
use crate::rows::{join_rows, label_row, negate_row, truth_row};
use crate::threshold::Threshold;
use crate::two_ends::Ends;
use crate::until::Until;
use crate::verdict::Verdict;
use formula::reader::{read_formula, record_count};
use model::source::Source;
use records::fault::JudgeFault;
use records::record::{Kind, Record};

// The rows of the records so far, each with a byte for each state.
#[derive(Clone, Copy)]
struct Rows<'r> {
    states: usize,
    bytes: &'r [u8],
}

impl<'r> Rows<'r> {
    // The row of the record with this number.
    fn of(&self, number: usize) -> &'r [u8]
        requires { HasRow self.now.states self.now.bytes.now number }
        ensures row { result.now ≡ row_at self.now.states self.now.bytes.now number }
        ensures long { length result.now ≡ self.now.states }
    {
        &self.bytes[number * self.states..][..self.states]
    }

    // The until of the two parts of a record.
    fn until<'s, S: Source>(&self, source: &'s S, record: &Record) -> Until<'s, 'r, S>
        requires states { self.now.states ≡ (S.Source.model source.now).states }
        requires left { HasRow self.now.states self.now.bytes.now «record».now.first }
        requires right { HasRow self.now.states self.now.bytes.now «record».now.second }
        ensures source { result.source.now ≡ source.now }
        ensures left { result.left.now ≡ row_at self.now.states self.now.bytes.now «record».now.first }
        ensures right { result.right.now ≡ row_at self.now.states self.now.bytes.now «record».now.second }
    {
        Until {
            source,
            left: self.of(record.first),
            right: self.of(record.second),
        }
    }
}

// The comparison and the bound of a probability.
fn threshold(record: &Record) -> Threshold
    requires { (c : Code) × («record».now.comparison ≡ Some c) }
    ensures comparison { «record».now.comparison ≡ Some result.comparison }
    ensures bound { result.bound ≡ «record».now.number }
{
    Threshold {
        comparison: record.comparison.unwrap(),
        bound: record.number,
    }
}

// Writes the row of a record, whose parts have theirs, and tells the ends that it was read off, if it has any.
fn write_row_of<S: Source>(
    source: &S,
    record: &Record,
    rows: &Rows<'_>,
    row: &mut [u8],
) -> Option<Ends>
    requires states { rows.now.states ≡ (S.Source.model source.now).states }
    requires row_long { length row.old ≡ (S.Source.model source.now).states }
    requires needs { Needs «record».now.kind (S.Source.model source.now).states rows.now.bytes.now «record».now }
    ensures row { row.new ≡ row_by (S.Source.model source.now) rows.now.bytes.now «record».now }
    ensures ends { Told (S.Source.model source.now).states (ends_by «record».now.kind (S.Source.model source.now) rows.now.bytes.now «record».now) result }
{
    // The arms of a next and of an until with steps end alike: were their ends made in a match of their own, the other kinds
    // would stand in both, and were they answered by what writes their row, that would have to promise them again.
    match record.kind {
        Kind::Truth => truth_row(row),
        Kind::Label => label_row(source, record.number as usize, row),
        Kind::Negation => negate_row(rows.of(record.first), row),
        Kind::Conjunction => join_rows(rows.of(record.first), rows.of(record.second), row),
        Kind::Next => {
            let threshold = threshold(record);
            let ends = next_ends(source, threshold.comparison, rows.of(record.first));
            ends.write_row(threshold, row);
            return Some(ends);
        }
        Kind::UntilWithin => {
            let threshold = threshold(record);
            let ends = rows
                .until(source, record)
                .within_ends(threshold.comparison, record.steps);
            ends.write_row(threshold, row);
            return Some(ends);
        }
        Kind::Until => rows.until(source, record).row(threshold(record), row),
    }
    None
}

// How many bytes of a row are this verdict's.
fn count(row: &[u8], verdict: Verdict) -> usize
    ensures { result ≡ count_by (λ b. b == verdict_number verdict) row.now }
{
    let number = verdict.number();
    row.iter().filter(|byte| **byte == number).count()
}

// Writes the row of each record, in their order, sets its counts, and tells the ends of the last.
fn evaluate<S: Source>(source: &S, records: &mut [Record], scratch: &mut [u8]) -> Option<Ends>
    requires long { length scratch.old ≡ length records.old * (S.Source.model source.now).states }
    requires chained { (fs : List Formula) × Chained (S.Source.model source.now) [] fs records.old }
    ensures counts { (fs : List Formula) → Chained (S.Source.model source.now) [] fs records.old → records.new ≡ counted_each (S.Source.model source.now) fs records.old }
    ensures rows { (fs : List Formula) → Chained (S.Source.model source.now) [] fs records.old → scratch.new ≡ rows_of (S.Source.model source.now) fs }
    ensures ends { (fs : List Formula) → Chained (S.Source.model source.now) [] fs records.old → Told (S.Source.model source.now).states (ends_of_last (S.Source.model source.now) fs) result }
{
    let states = source.states();
    let mut ends = None;
    for (number, record) in records.iter_mut().enumerate() {
        let (done, rest) = scratch.split_at_mut(number * states);
        let row = &mut rest[..states];
        let rows = Rows {
            states,
            bytes: done,
        };
        ends = write_row_of(source, record, &rows, row);
        record.yes = count(row, Verdict::Yes);
        record.undecided = count(row, Verdict::Undecided);
    }
    ends
}

// What judging a text answers where it is accepted: how many records there are, and the ends that the verdicts of the whole
// formula were read off, if its outermost operator has any.
#[derive(Drop)]
pub struct Judged {
    pub records: usize,
    pub ends: Option<Ends>,
}

// Judges the text of a formula over a source: fills the front of the lent records with those of its state formulas, and of
// the scratch with their rows, sets the records' counts, and copies the last row into the output. A refusal leaves all that
// is lent as it was.
pub fn judge_with_ends<S: Source>(
    source: &S,
    text: &[u8],
    records: &mut [Record],
    scratch: &mut [u8],
    out: &mut [u8],
) -> Result<Judged, JudgeFault>
    ensures answer { JudgeResult (S.Source.model source.now) text.now (lent records.old scratch.old out.old) (lent records.new scratch.new out.new) (records_of result) }
    ensures ends { EndsTold (S.Source.model source.now) text.now result }
    ensures meaning { IfOk (records_of result) (JudgeMeans (S.model source.now) text.now
        (lent records.new scratch.new out.new)) }
    ensures ends_meaning { IfOk result (λ j. IfSome j.ends (BoundFormulaOf (S.model source.now) text.now)) }
{
    let states = source.states();
    let count = record_count(text, records.len())?;
    if scratch.len() < count * states {
        return Err(JudgeFault::Scratch);
    }
    if out.len() != states {
        return Err(JudgeFault::Out);
    }
    read_formula(text, records)?;
    let ends = evaluate(
        source,
        &mut records[..count],
        &mut scratch[..count * states],
    );
    let rows = Rows {
        states,
        bytes: scratch,
    };
    out.copy_from_slice(rows.of(count - 1));
    Ok(Judged {
        records: count,
        ends,
    })
}
