// The program: the console joined to arguments, files and streams. It may use the console crate.
#![tactic(auto)]

use console::answer::path;
use console::promise::reply;
use console::reply::Reply;
use std::io::Write;
use std::process::ExitCode;
use std::{env, fs, io};

// The bytes of the file with this number that the command line names, if it names one and that can be read. The tour has this and
// the lines that call it word for word: both stand above the console, which does no input, with no library between.
fn file(rt: &HostRuntime, args: &[String], number: usize) -> Option<Vec<u8>> {
    path(args, number).and_then(|path| fs::read(rt, path).ok())
}

// Reads the files that the command line names, and prints the reply: a success where nothing is refused or wrong. The reports
// of a list of limits go to standard output as they are made, and their progress to standard error.
fn run(rt: &HostRuntime) -> io::Result<ExitCode> {
    let args: Vec<String> = env::args(rt)?.skip(1).collect(rt.alloc())?;
    let args = args.as_slice();
    let (model, other) = (file(rt, args, 0), file(rt, args, 1));
    let (model, other) = (model.as_deref(), other.as_deref());
    let (mut out, mut progress) = (rt.stdout(), rt.stderr());
    match reply(rt.alloc(), args, model, other, &mut out, &mut progress)? {
        Reply::Printed(text) => {
            rt.stdout().write_all(text.as_slice())?;
            Ok(ExitCode::SUCCESS)
        }
        Reply::Refused(text) => {
            rt.print(text.as_str())?;
            Ok(ExitCode::FAILURE)
        }
        Reply::Wrong(text) => {
            rt.eprint(text.as_str())?;
            Ok(ExitCode::FAILURE)
        }
    }
}

fn main(rt: HostRuntime) -> io::Result<ExitCode> {
    match run(&rt) {
        Ok(status) => Ok(status),
        Err(error) => {
            eprintln!(rt; "kavzhubo: {error}")?;
            Ok(ExitCode::FAILURE)
        }
    }
}
