// A tour: every command, each kind of refusal and of wrong command line, and a held state, through the same library as
// the program. It may use the console crate and those below it.
#![tactic(auto)]

mod lines;

use crate::lines::{FILES, SECTIONS};
use console::answer::path;
use console::promise::reply;
use console::reply::Reply;
use layers::hold::Hold;
use model::limits::TEXT_BYTES;
use model::source::Source;
use printing::listing::{state_text, totals};
use printing::totals::Totals;
use printing::words::refusal_line;
use std::alloc::{AllocError, Global};
use std::io::Write;
use std::{fs, io};
use tables::tables::Tables;

// The words of a command line, after the program's name, without the quotes around a formula.
fn words(heap: Global, line: &str) -> Result<Vec<String>, AllocError> {
    line.split_whitespace()
        .skip(1)
        .map(|word| String::from_str(heap, word.trim_matches('\'')))
        .try_collect(heap)
}

// The bytes of the file with this number that the words of a command line name, if they name one and that can be read. The program
// has this and the lines that call it word for word: both stand above the console, which does no input, with no library between.
fn file(rt: &HostRuntime, args: &[String], number: usize) -> Option<Vec<u8>> {
    path(args, number).and_then(|path| fs::read(rt, path).ok())
}

// Plays a command line: prints it, what the program answers to it, and the exit status.
fn play(rt: &HostRuntime, line: &str) -> io::Result<()> {
    let args = words(rt.alloc(), line)?;
    let args = args.as_slice();
    let (model, other) = (file(rt, args, 0), file(rt, args, 1));
    let (model, other) = (model.as_deref(), other.as_deref());
    let (mut out, mut progress) = (rt.stdout(), rt.stdout());
    println!(rt; "\n$ {line}")?;
    match reply(rt.alloc(), args, model, other, &mut out, &mut progress)? {
        Reply::Printed(text) => {
            rt.stdout().write_all(text.as_slice())?;
            rt.println("(exit status 0)")
        }
        Reply::Refused(text) => {
            rt.print(text.as_str())?;
            rt.println("(exit status 1)")
        }
        Reply::Wrong(text) => {
            rt.print(text.as_str())?;
            rt.println("(on standard error, exit status 1)")
        }
    }
}

// Plays several command lines under a heading.
fn play_all(rt: &HostRuntime, heading: &str, lines: &[&str]) -> io::Result<()> {
    println!(rt; "\n{heading}")?;
    for line in lines {
        play(rt, line)?;
    }
    Ok(())
}

// Prints a state of a source as `show` does.
fn print_state<S: Source>(rt: &HostRuntime, source: &S, state: usize) -> io::Result<()> {
    rt.print(state_text(rt.alloc(), source, state)?.as_str())
}

// Holds a state of a source, and prints it before and after.
fn print_held<S: Source>(rt: &HostRuntime, source: &S, state: usize) -> io::Result<()> {
    let mut layer = Hold::over(source);
    println!(rt; "\nA layer over it, and a call to hold state {state}. Before:")?;
    print_state(rt, &layer, state)?;
    match layer.hold(state) {
        Ok(()) => {
            rt.println("After:")?;
            print_state(rt, &layer, state)
        }
        Err(fault) => rt.println(refusal_line(rt.alloc(), &fault)?.as_str()),
    }
}

// Loads a file, says what was read, and holds a state that it has and one that it has not.
fn print_layers(rt: &HostRuntime, name: &str) -> io::Result<()> {
    let text = fs::read(rt, name)?;
    let mut tables = Tables::new(rt.alloc())?;
    if tables.load(text.as_slice()).is_err() {
        return println!(rt; "\n{name} is refused.");
    }
    let Totals {
        states,
        choices,
        branches,
        ..
    } = totals(&tables, text.len());
    println!(rt; "\nLoaded {name}: {states} states, {choices} choices, {branches} branches.")?;
    print_held(rt, &tables, 3)?;
    print_held(rt, &tables, states)
}

// Loads a file and writes it, and says whether the bytes are the same.
fn print_copy(rt: &HostRuntime, name: &str) -> io::Result<()> {
    let text = fs::read(rt, name)?;
    let mut tables = Tables::new(rt.alloc())?;
    let mut out = vec![in rt.alloc(); 0u8; TEXT_BYTES]?;
    match tables.load_and_write(text.as_slice(), out.as_mut_slice()) {
        Ok(length) => {
            out.truncate(length);
            let verdict = if out.as_slice() == text.as_slice() {
                "the same"
            } else {
                "not the same"
            };
            println!(rt; "\nLoaded {name} and wrote it: {length} bytes, {verdict}.")
        }
        Err(fault) => {
            let number = fault.number();
            println!(rt; "\n{name} is refused with {number}.")
        }
    }
}

fn main(rt: HostRuntime) -> io::Result<()> {
    rt.println("A tour of kavzhubo: after each $ stands a command line, and under it the answer.")?;
    play_all(&rt, "A file.", FILES)?;
    print_copy(&rt, "relearn.mdp")?;
    print_layers(&rt, "relearn.mdp")?;
    for (heading, lines) in SECTIONS {
        play_all(&rt, heading, lines)?;
    }
    Ok(())
}
