ghost use Rattle.std.specs.Prelude.{◌≡◌, ◌≤◌, None, slice_set};
ghost use Rattle.formula.specs.Records.{line};
ghost use Rattle.formula.specs.Readings.{StateReads, PathReads, AtomReads};

use crate::cursor::Cursor;
use crate::reading::{Path, Reading};
use records::record::{Kind, Record};

// Reads the state formula that begins there, and writes its records from number `count` on, as far as there is room:
// what is known of it, or the place where every beginning of a formula breaks off. The count is no field of
// the cursor: a place goes on over each byte, and the count only where a formula ends, whose reading tells it to the next
// part. It is at most the place, since each record has a byte of its own. The records and the count are no struct that
// counts on: a reading tells its count as a part of its answer, and a struct would have each contract tell it a second time.
// This reader and that of a path formula call each other, as the rules of the grammar name each other.
#[cycle(path_formula_state_formula)]
pub(crate) fn state_formula(
    from: Cursor<'_>,
    records: &mut [Record],
    count: usize,
) -> Result<Reading, usize>
    requires { count ≤ from.at }
    ensures { StateReads from.entry.text.now from.entry.at count records.old records.new result }
{
    let Cursor { text, at } = from;
    let Some(first) = text.get(at) else {
        return Err(at);
    };
    match *first {
        b'!' => {
            let part = state_formula(from.to(at + 1), records, count)?;
            let line = compound(Kind::Negation, part.count - 1, 0);
            put(records, part.count, line);
            Ok(part.entire(part.end))
        }
        b'(' => {
            let left = state_formula(from.to(at + 1), records, count)?;
            let middle = from.to(left.end).expect(b'&')?;
            let right = state_formula(from.to(middle), records, left.count)?;
            let end = from.to(right.end).expect(b')')?;
            let line = compound(Kind::Conjunction, left.count - 1, right.count - 1);
            put(records, right.count, line);
            Ok(left.joined(right).entire(end))
        }
        b'P' => {
            let bound = from.to(at + 1).read_bound()?;
            let opening = from.to(bound.end).expect(b'[')?;
            let path = path_formula(from.to(opening), records, count)?;
            let end = from.to(path.parts.end).expect(b']')?;
            put(records, path.parts.count, path.line(bound));
            Ok(path.probability(at, bound, end))
        }
        _ => atomic_formula(from, records, count),
    }
}

// The same of the path formula that begins there, whose own record is that of the probability over it.
#[cycle(path_formula_state_formula)]
pub(crate) fn path_formula(
    from: Cursor<'_>,
    records: &mut [Record],
    count: usize,
) -> Result<Path, usize>
    requires { count ≤ from.at }
    ensures { PathReads from.entry.text.now from.entry.at count records.old records.new result }
{
    if from.stands(b'X') {
        let part = state_formula(from.to(from.at + 1), records, count)?;
        return Ok(Path::next(part));
    }
    let left = state_formula(from, records, count)?;
    let until = from.to(left.end).expect(b'U')?;
    let steps = from.to(until).read_steps()?;
    let right = state_formula(from.to(steps.end), records, left.count)?;
    Ok(Path::until(left, steps.limit, right))
}

// The same of a formula without parts: `true` or a letter.
fn atomic_formula(from: Cursor<'_>, records: &mut [Record], count: usize) -> Result<Reading, usize>
    requires { count ≤ from.at }
    ensures { AtomReads from.entry.text.now from.entry.at count records.old records.new result }
{
    let Cursor { text, at } = from;
    match &text[at..] {
        [b't', ..] => {
            let end = from.expect_all(b"true")?;
            put(records, count, atomic(Kind::Truth, 0));
            Ok(Reading::atom(end, count))
        }
        [letter @ b'a'..=b'p', ..] => {
            let number = *letter - b'a';
            put(records, count, atomic(Kind::Label, u64::from(number)));
            Ok(Reading::atom(at + 1, count))
        }
        _ => Err(at),
    }
}

// The record of a formula without parts.
fn atomic(kind: Kind, number: u64) -> Record
    ensures { result ≡ line kind 0 0 None number 0 }
{
    Record {
        kind,
        first: 0,
        second: 0,
        comparison: None,
        number,
        steps: 0,
        yes: 0,
        undecided: 0,
    }
}

// The record of a formula of other formulas, by the numbers of their records.
fn compound(kind: Kind, first: usize, second: usize) -> Record
    ensures { result ≡ line kind first second None 0 0 }
{
    Record {
        first,
        second,
        ..atomic(kind, 0)
    }
}

// Writes the record at its place, if there is one: by its index, for of a write through what `get_mut` lends a proof knows
// the slice's length alone.
fn put(records: &mut [Record], place: usize, record: Record)
    ensures { records.new ≡ slice_set records.old place «record» }
{
    if place < records.len() {
        records[place] = record;
    }
}
