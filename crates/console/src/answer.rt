ghost use Rattle.std.specs.Prelude.{◌≡◌, map, IfOk, OnErr, string_bytes};
ghost use Rattle.std.specs.Option.{option_map};
ghost use Rattle.limits_text.specs.Lists.{Writes};
ghost use Rattle.console.specs.Commands.{command_of};
ghost use Rattle.console.specs.Replies.{answer_of, Answers, Begun, FormulaTextAnswer, path_wanted};

use crate::check_reply::{Limits, Writers};
use crate::command::{Command, ModelName};
use crate::form::print_reply;
use crate::given::GivenFile;
use crate::help::{help_text, mistake_text};
use crate::named::Named;
use crate::parse::{command, word_at};
use crate::reply::Reply;
use crate::rounds_reply::rounds_reply;
use crate::trial_reply::Calls;
use formula_text::answer::formula_table;
use formula_text::words::judge_refusal;
use std::alloc::{AllocError, Global};
use std::io;
use std::io::Write;

// The reply on a formula's text.
fn formula_reply(heap: Global, text: &[u8]) -> Result<Reply, AllocError>
    ensures { IfOk result (λ a. FormulaTextAnswer text.now (answer_of a)) }
{
    match formula_table(heap, text)? {
        Ok(table) => Ok(Reply::printed(table)),
        Err(fault) => Ok(Reply::Refused(judge_refusal(heap, text, &fault)?)),
    }
}

// The path of the file with this number that the words of the command line want read. File 0 is that of the model, and file 1
// that of the calls of a trial or of a list of limits: files are counted in the order in which they are read, and a caller asks
// for one after another. It is a number and no enum: any number may be asked for, and a type of the two would ask more of callers.
pub fn path(args: &[String], file: usize) -> Option<&str>
    ensures { option_map (λ x. x.now) result ≡ path_wanted (command_of (map string_bytes args.now)) file (map string_bytes args.now) }
{
    match (command(args), file) {
        (
            Ok(
                Command::Print(_, ModelName::File)
                | Command::Rounds(ModelName::File, _)
                | Command::Trial(ModelName::File)
                | Command::Check(ModelName::File),
            ),
            0,
        ) => Some(word_at(args, 1)),
        (Ok(Command::Trial(_) | Command::Check(_)), 1) => Some(word_at(args, 2)),
        _ => None,
    }
}

// The reply to the words of the command line, as `promise::reply` gives it.
pub(crate) fn reply_to<W: Write, P: Write>(
    heap: Global,
    args: &[String],
    file: Option<&[u8]>,
    second: Option<&[u8]>,
    out: &mut W,
    progress: &mut P,
) -> io::Result<Reply>
    ensures whole { IfOk result (λ a. Writes
        (λ w. Answers (map string_bytes args.now)
        (option_map (λ x. x.now) file.entry) (option_map (λ x. x.now) second.entry)
        w (answer_of a))
        (W.Write.contents out.old) (W.Write.contents out.new)
        (P.Write.contents progress.old) (P.Write.contents progress.new)) }
    ensures begun { OnErr result (Writes
        (Begun (map string_bytes args.now)
        (option_map (λ x. x.now) file.entry) (option_map (λ x. x.now) second.entry))
        (W.Write.contents out.old) (W.Write.contents out.new)
        (P.Write.contents progress.old) (P.Write.contents progress.new)) }
{
    let path = word_at(args, 1);
    let file = GivenFile { path, bytes: file };
    let other = GivenFile {
        path: word_at(args, 2),
        bytes: second,
    };
    match command(args) {
        Ok(Command::Help) => Ok(Reply::printed(String::from_str(heap, help_text())?)),
        Ok(Command::Print(form, name)) => Ok(print_reply(heap, form, &Named { name, file })?),
        Ok(Command::Rounds(name, request)) => {
            Ok(rounds_reply(heap, request, &Named { name, file }, args)?)
        }
        Ok(Command::Formula) => Ok(formula_reply(heap, path.as_bytes())?),
        Ok(Command::Trial(name)) => Ok(Named { name, file }.reply(heap, &Calls(other))?),
        Ok(Command::Check(name)) => {
            Limits(other).check(heap, &Named { name, file }, Writers { out, progress })
        }
        Err(mistake) => Ok(Reply::Wrong(mistake_text(heap, mistake, args)?)),
    }
}
