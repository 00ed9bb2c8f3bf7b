ghost use Rattle.std.specs.Prelude.{◌≡◌, Some, IfOk, string_bytes};
ghost use Rattle.calls_text.specs.RecordTexts.{letter_text, threshold_text, formula_text, row_text, record_line, record_lines};

use crate::signs::sign;
use records::record::{Kind, Record};
use std::alloc::{AllocError, Global};
use std::fmt;
use std::fmt::Write;

// The number of a label, told by its letter, or as it is where it is that of no label.
#[derive(Clone, Copy)]
struct Letter(u64);

impl fmt::Display for Letter {
    ghost output = { λ l. Some (letter_text l.0) };

    fn fmt<W: fmt::Write>(&self, f: &mut fmt::Formatter<W>) -> fmt::Result {
        let Letter(number) = *self;
        if number >= 16 {
            return write!(f, "{number}");
        }
        let letter = char::from(b'a' + number as u8);
        write!(f, "{letter}")
    }
}

// The comparison of a record's probability and its bound, if there is one.
#[derive(Clone, Copy)]
struct Threshold<'a>(&'a Record);

impl fmt::Display for Threshold<'_> {
    ghost output = { λ t. Some (threshold_text t.0.now) };

    fn fmt<W: fmt::Write>(&self, f: &mut fmt::Formatter<W>) -> fmt::Result {
        let Record {
            comparison,
            number,
            ..
        } = *self.0;
        match comparison {
            None => Ok(()),
            Some(comparison) => {
                let sign = sign(comparison);
                write!(f, " {sign} {number}")
            }
        }
    }
}

// What a record stands for.
#[derive(Clone, Copy)]
struct Formula<'a>(&'a Record);

impl fmt::Display for Formula<'_> {
    ghost output = { λ l. Some (formula_text l.0.now) };

    fn fmt<W: fmt::Write>(&self, f: &mut fmt::Formatter<W>) -> fmt::Result {
        let Record {
            kind,
            first,
            second,
            number,
            steps,
            ..
        } = *self.0;
        let letter = Letter(number);
        let threshold = Threshold(self.0);
        match kind {
            Kind::Truth => write!(f, "true"),
            Kind::Label => write!(f, "label {letter}"),
            Kind::Negation => write!(f, "not {first}"),
            Kind::Conjunction => write!(f, "and {first} {second}"),
            Kind::Next => write!(f, "next {first}{threshold}"),
            Kind::UntilWithin => write!(f, "until {first} {second} steps {steps}{threshold}"),
            Kind::Until => write!(f, "until {first} {second}{threshold}"),
        }
    }
}

// The verdict bytes of a row, one after another.
#[derive(Clone, Copy)]
pub(crate) struct Row<'a>(pub(crate) &'a [u8]);

impl fmt::Display for Row<'_> {
    ghost output = { λ r. Some (row_text r.0.now) };

    fn fmt<W: fmt::Write>(&self, f: &mut fmt::Formatter<W>) -> fmt::Result {
        for byte in self.0 {
            write!(f, "{byte}")?;
        }
        Ok(())
    }
}

// The line of a record: its number, what it stands for, its counts and its row.
#[derive(Clone, Copy)]
struct RecordLine<'a>(usize, &'a Record, &'a [u8]);

impl fmt::Display for RecordLine<'_> {
    ghost output = { λ l. Some (record_line l.0 l.1.now l.2.now) };

    fn fmt<W: fmt::Write>(&self, f: &mut fmt::Formatter<W>) -> fmt::Result {
        let RecordLine(index, line, row) = *self;
        let Record { yes, undecided, .. } = *line;
        let formula = Formula(line);
        let row = Row(row);
        write!(
            f,
            "{index} {formula} yes {yes} undecided {undecided}: {row}\n"
        )
    }
}

// The lines of records, each with its row of the scratch, which has so many bytes. The rows are cut off one by one: `chunks` has
// none of no bytes, and none for the records past the end of the scratch, whose rows are empty.
pub(crate) fn record_lines(
    heap: Global,
    states: usize,
    records: &[Record],
    scratch: &[u8],
) -> Result<String, AllocError>
    ensures { IfOk result (λ s. string_bytes s ≡ record_lines states 0 records.now scratch.now) }
{
    let mut text = String::new(heap);
    let mut rest = scratch;
    for (index, line) in records.iter().enumerate() {
        let (row, after) = rest.split_at(states.min(rest.len()));
        let line = RecordLine(index, line, row);
        write!(text, "{line}")?;
        rest = after;
    }
    Ok(text)
}
