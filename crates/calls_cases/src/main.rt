// The cases of texts of calls: each line of the input has a case's name, the name of a model and an escaped text of calls,
// which is read and played on a trial of the model; what came of it is printed. The expected output was worked out from the
// definitions by a program in another language.
// It may use the crates model, theory, rules, rounds, ladder, layers, text, tables, grammar, records, formula, trial, replay, printing,
// formula_text, calls_text, pairs and escapes.
#![tactic(auto)]

use calls_text::hold::hold_states;
use calls_text::print::answers_text;
use calls_text::read::read_calls;
use calls_text::script::Script;
use escapes::expand;
use layers::hold::Hold;
use pairs::models::{RETRY, THIRDS};
use replay::replay::replay;
use std::alloc::{AllocError, Global};
use std::io;
use std::io::{BufRead, BufReader};
use tables::tables::Tables;

// The text of a model of this name.
fn model_text(name: &str) -> &'static [u8] {
    match name {
        "thirds" => THIRDS,
        _ => RETRY,
    }
}

// What is printed of a text of calls on a trial of a model. States are held, calls made and answers printed by three public
// calls one by one, as the command line does in its crate: one call of all three would promise three definitions at once.
fn played(heap: Global, model: &[u8], text: &[u8]) -> Result<String, AllocError> {
    let mut tables = Tables::new(heap)?;
    if tables.load(model).is_err() {
        return String::from_str(heap, "this is no model\n");
    }
    let mut layer = Hold::over(&tables);
    match read_calls(heap, &layer, text)? {
        Err(mistake) => format!(in heap; "{mistake}\n"),
        Ok(Script { holds, mut calls }) => {
            let held = hold_states(heap, &mut layer, holds.as_slice())?;
            replay(&layer, calls.as_mut_slice());
            let answers = answers_text(heap, &layer, calls.as_slice())?;
            format!(in heap; "{held}{answers}")
        }
    }
}

fn main(rt: HostRuntime) -> io::Result<()> {
    let heap = rt.alloc();
    for line in BufReader::new(heap, rt.stdin())?.lines(heap) {
        let line = line?;
        if let Some((name, rest)) = line.as_str().split_once(' ')
            && let Some((model, escaped)) = rest.split_once(' ')
        {
            let text = expand(heap, escaped)?;
            let answer = played(heap, model_text(model), text.as_slice())?;
            println!(rt; "{name}:\n{answer}")?;
        }
    }
    Ok(())
}
