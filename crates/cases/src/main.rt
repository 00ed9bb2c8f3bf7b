// The cases of the model text: each line of the input has a name and a text, which is loaded into one table; what came
// of it is printed. The expected output was worked out from the rules of the format without any of this code.
// It may use the crates model, text, tables, ladder, layers, printing and escapes.
#![tactic(auto)]

mod report;

use escapes::expand;
use printing::listing::totals;
use printing::words::Refused;
use report::{counts, writes};
use std::io;
use std::io::{BufRead, BufReader};
use tables::tables::Tables;

// Tries one case: the text is loaded, and what the table then writes must be `kept`, the text that it holds. Here and in the
// report `tables` and a text are two arguments: the one table is lent to all cases, and each case has a text of its own.
fn tried(
    rt: &HostRuntime,
    tables: &mut Tables,
    kept: Vec<u8>,
    name: &str,
    text: Vec<u8>,
) -> io::Result<Vec<u8>> {
    let heap = rt.alloc();
    let (found, held, same) = match tables.load(text.as_slice()) {
        Ok(()) => (
            counts(heap, totals(&*tables, text.len()))?,
            text,
            "the same",
        ),
        Err(fault) => (format!(in heap; "{}", Refused(fault))?, kept, "as before"),
    };
    let bytes = held.len();
    let right = if writes(heap, tables, held.as_slice())? {
        same
    } else {
        "another text"
    };
    println!(rt; "{name}: {found}; writes {bytes} bytes, {right}")?;
    Ok(held)
}

fn main(rt: HostRuntime) -> io::Result<()> {
    let heap = rt.alloc();
    let mut tables = Tables::new(heap)?;
    let mut kept = expand(heap, "mdp\\t1\\t1\\ns\\t-\\nc\\nb\\t0\\t1\\nend\\n")?;
    for line in BufReader::new(heap, rt.stdin())?.lines(heap) {
        let line = line?;
        if let Some((name, escaped)) = line.as_str().split_once(' ') {
            let text = expand(heap, escaped)?;
            kept = tried(&rt, &mut tables, kept, name, text)?;
        }
    }
    Ok(())
}
