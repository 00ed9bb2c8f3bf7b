ghost use Rattle.std.specs.Prelude.{◌≡◌, Some, IfOk, string_bytes};
ghost use Rattle.formula_text.specs.Tables.{record_line, records_table};

use records::record::Record;
use std::alloc::{AllocError, Global};
use std::fmt;
use std::fmt::Write;

// A record by its number, told as a line of the table.
#[derive(Clone, Copy)]
struct Line<'a>(usize, &'a Record);

impl fmt::Display for Line<'_> {
    ghost output = { λ l. Some (record_line l.0 l.1.now) };

    fn fmt<W: fmt::Write>(&self, f: &mut fmt::Formatter<W>) -> fmt::Result {
        let Line(index, line) = *self;
        let kind = line.kind.number();
        let comparison = line.comparison_number();
        let Record {
            first,
            second,
            number,
            steps,
            ..
        } = *line;
        write!(
            f,
            "{index}\t{kind}\t{first}\t{second}\t{comparison}\t{number}\t{steps}\n"
        )
    }
}

// The table of some records: a heading, and a line for each.
pub(crate) fn records_table(heap: Global, records: &[Record]) -> Result<String, AllocError>
    ensures { IfOk result (λ s. string_bytes s ≡ records_table records.now) }
{
    let mut out = String::from_str(
        heap,
        "record\tkind\tfirst\tsecond\tcomparison\tnumber\tsteps\n",
    )?;
    for (index, line) in records.iter().enumerate() {
        let line = Line(index, line);
        write!(out, "{line}")?;
    }
    Ok(out)
}
