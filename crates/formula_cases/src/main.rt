// The cases of the formula reader: each line of the input has the word `formula`, a name, how many records are lent, and a
// formula's text, which is read; what came of it is printed. The expected output was worked out from the rules of the
// grammar without any of this code.
// It may use the crates model, theory, text, grammar, records, formula and escapes.
#![tactic(auto)]

use escapes::expand;
use formula::reader::read_formula;
use records::record::{Kind, Record};
use std::alloc::{AllocError, Global};
use std::fmt::Write;
use std::io;
use std::io::{BufRead, BufReader};

// What the lent records are before a text is read: like no record that is read, so a change is seen. The tests of replays have
// the same: it is a value for tests, and there is no crate of tests that both use.
const BEFORE: Record = Record {
    kind: Kind::Until,
    first: 77,
    second: 77,
    comparison: None,
    number: 77,
    steps: 77,
    yes: 77,
    undecided: 77,
};

// The fields of these records by their numbers.
fn listed(heap: Global, records: &[Record]) -> Result<String, AllocError> {
    let mut out = String::new(heap);
    for record in records {
        let kind = record.kind.number();
        let comparison = record.comparison_number();
        let Record {
            first,
            second,
            number,
            steps,
            yes,
            undecided,
            ..
        } = *record;
        write!(
            out,
            " ({kind} {first} {second} {comparison} {number} {steps} {yes} {undecided})"
        )?;
    }
    Ok(out)
}

// Whether all of these records are as they were.
fn untouched(records: &[Record]) -> &'static str {
    if records.iter().all(|record| *record == BEFORE) {
        "untouched"
    } else {
        "changed"
    }
}

// Tries one case: the text is read into so many records.
fn tried(rt: &HostRuntime, name: &str, lent: usize, text: &[u8]) -> io::Result<()> {
    let heap = rt.alloc();
    let mut records = vec![in heap; BEFORE; lent]?;
    match read_formula(text, records.as_mut_slice()) {
        Ok(count) => {
            let lines = listed(heap, &records[..count])?;
            let rest = untouched(&records[count..]);
            println!(rt; "formula {name}: ok {count}{lines}; rest {rest}")
        }
        Err(fault) => {
            let rest = untouched(records.as_slice());
            println!(rt; "formula {name}: {fault}; records {rest}")
        }
    }
}

// Tries the case that a line has: a name, how many records are lent, and an escaped text.
fn read(rt: &HostRuntime, case: &str) -> io::Result<()> {
    if let Some((name, rest)) = case.split_once(' ')
        && let Some((lent, escaped)) = rest.split_once(' ')
    {
        let text = expand(rt.alloc(), escaped)?;
        let lent = lent.parse::<usize>().unwrap_or(0);
        tried(rt, name, lent, text.as_slice())?;
    }
    Ok(())
}

fn main(rt: HostRuntime) -> io::Result<()> {
    for line in BufReader::new(rt.alloc(), rt.stdin())?.lines(rt.alloc()) {
        let line = line?;
        if let Some(case) = line.as_str().strip_prefix("formula ") {
            read(&rt, case)?;
        }
    }
    Ok(())
}
