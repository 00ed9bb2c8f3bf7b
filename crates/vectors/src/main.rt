// Worked examples: small models on which every number can be found by hand. Each line of the input is a remark, a model, or a
// question on the model before it that is asked through the public calls, and what came of it is printed. The remarks tell the
// model and how its numbers come about: the expected output was worked out from these, without any of this code.
// It may use the crates model, text, tables, ladder, rules, rounds, records, trial and printing.
#![tactic(auto)]

mod ask;
mod chance;
mod failure;
mod judged;
mod query;
mod spread;

use crate::ask::{ask, number};
use crate::failure::Failure;
use ladder::ladder::Ladder;
use std::alloc::Global;
use std::io::{BufRead, BufReader};
use std::{fs, io};
use tables::tables::Tables;

// The model that questions are asked on. The command line has the like in its crate, which this program does not use.
#[derive(Drop)]
enum Model {
    Table(Tables),
    Ladder(Ladder),
}

// The table of a text.
fn table(heap: Global, text: &[u8]) -> Result<Model, Failure> {
    let mut tables = Tables::new(heap)?;
    tables.load(text)?;
    Ok(Model::Table(tables))
}

// The ladder of three numbers.
fn climb(rungs: &str, denominator: &str, weight: &str) -> Result<Model, Failure> {
    let rungs = number(rungs)? as usize;
    let denominator = number(denominator)?;
    let weight = number(weight)?;
    Ok(Model::Ladder(Ladder::new(rungs, denominator, weight)?))
}

// What a model answers to a question.
fn answer(heap: Global, model: &Model, words: &[&str]) -> Result<String, Failure> {
    match model {
        Model::Table(tables) => ask(heap, tables, words),
        Model::Ladder(ladder) => ask(heap, ladder, words),
    }
}

// Takes a new model in the place of the one before, unless it is refused.
fn take(
    rt: &HostRuntime,
    line: &str,
    before: Model,
    found: Result<Model, Failure>,
) -> io::Result<Model> {
    match found {
        Ok(model) => {
            println!(rt; "{line}: read")?;
            Ok(model)
        }
        Err(failure) => {
            println!(rt; "{line}: {failure}")?;
            Ok(before)
        }
    }
}

// Plays a line that is no remark, and leaves the model for the next.
fn play(rt: &HostRuntime, line: &str, model: Model) -> io::Result<Model> {
    let heap = rt.alloc();
    let words: Vec<&str> = line.split(' ').collect(heap)?;
    match words.as_slice() {
        ["model", name] => take(rt, line, model, table(heap, fs::read(rt, name)?.as_slice())),
        ["ladder", rungs, denominator, weight] => {
            take(rt, line, model, climb(rungs, denominator, weight))
        }
        question => {
            match answer(heap, &model, question) {
                Ok(text) => println!(rt; "{line}:{text}")?,
                Err(failure) => println!(rt; "{line}: {failure}")?,
            }
            Ok(model)
        }
    }
}

fn main(rt: HostRuntime) -> io::Result<()> {
    let heap = rt.alloc();
    let mut model = Model::Table(Tables::new(heap)?);
    for line in BufReader::new(heap, rt.stdin())?.lines(heap) {
        let line = line?;
        if line.as_str().is_empty() || line.as_str().starts_with('#') {
            println!(rt; "{line}")?;
        } else {
            model = play(&rt, line.as_str(), model)?;
        }
    }
    Ok(())
}
