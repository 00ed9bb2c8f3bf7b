// The cases of lists of limits: each line of the input names the files of a model and of a list, and what is printed of the
// list is printed. The expected output was worked out from the rules in words, by a program in another language.
// It may use the crates model, tables and limits_text, and those below.
#![tactic(auto)]

use limits_text::list::report_list;
use limits_text::summary::Summary;
use std::io::{BufRead, BufReader};
use std::{fs, io};
use tables::tables::Tables;

// Prints what is printed of a list on a model: of each line, and the summary.
fn print_list(rt: &HostRuntime, model: &Tables, list: &[u8]) -> io::Result<()> {
    let outcomes = report_list(rt.alloc(), model, list, &mut rt.stdout(), &mut io::sink())?;
    rt.print(Summary::of(outcomes.as_slice()))
}

// Plays a case: the model and the list of these files.
fn play(rt: &HostRuntime, model: &str, list: &str) -> io::Result<()> {
    println!(rt; "check {model} {list}")?;
    let mut tables = Tables::new(rt.alloc())?;
    match tables.load(fs::read(rt, model)?.as_slice()) {
        Ok(()) => print_list(rt, &tables, fs::read(rt, list)?.as_slice()),
        Err(fault) => println!(rt; "refused {}", fault.number()),
    }
}

fn main(rt: HostRuntime) -> io::Result<()> {
    for line in BufReader::new(rt.alloc(), rt.stdin())?.lines(rt.alloc()) {
        let line = line?;
        if let Some((model, list)) = line.as_str().split_once(' ') {
            play(&rt, model, list)?;
        }
    }
    Ok(())
}
