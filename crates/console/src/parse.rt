ghost use Rattle.std.specs.Prelude.{◌≡◌, map, string_bytes};
ghost use Rattle.console.specs.Commands.{help_asked, print_asked, rounds_asked, formula_asked, model_and_file, word_at, command_of};

use crate::command::{Command, Form, Mistake, ModelName, RoundsMistake, Verb};
use crate::names::{kind, preference};
use rounds_text::request::Request;
use text::number::long_number;

// A word of the command line, from 0; empty where there is none.
pub(crate) fn word_at(args: &[String], index: usize) -> &str
    ensures { result.now ≡ word_at index (map string_bytes args.now) }
{
    args.get(index).map_or("", |word| word.as_str())
}

// What the words after `help` ask for.
fn help_asked(words: &[String]) -> Result<Command, Mistake>
    ensures { result ≡ help_asked (map string_bytes words.now) }
{
    match words {
        [] => Ok(Command::Help),
        _ => Err(Mistake::TooMany),
    }
}

// What the words after `show` or `write` ask for.
fn print_asked(form: Form, words: &[String]) -> Result<Command, Mistake>
    ensures { result ≡ print_asked form (map string_bytes words.now) }
{
    match words {
        [] => Err(Mistake::NoModel),
        [name] => Ok(Command::Print(form, ModelName::try_from(name.as_str())?)),
        _ => Err(Mistake::TooMany),
    }
}

// What the words after `rounds` ask for: MODEL, RULE, PREFERENCE, COUNT and VALUES.
fn rounds_asked(words: &[String]) -> Result<Command, Mistake>
    ensures { result ≡ rounds_asked (map string_bytes words.now) }
{
    match words {
        [name, rule, wanted, number, _] => {
            let model = ModelName::try_from(name.as_str())?;
            let kind = kind(rule.as_str()).ok_or(RoundsMistake::NoRule)?;
            let preference = preference(wanted.as_str()).ok_or(RoundsMistake::NoPreference)?;
            let count = long_number(number.as_bytes()).ok_or(RoundsMistake::NoCount)?;
            let request = Request {
                kind,
                preference,
                count,
            };
            Ok(Command::Rounds(model, request))
        }
        _ if words.len() < 5 => Err(Mistake::Rounds(RoundsMistake::TooFew)),
        _ => Err(Mistake::TooMany),
    }
}

// What the words after `formula` ask for: TEXT.
fn formula_asked(words: &[String]) -> Result<Command, Mistake>
    ensures { result ≡ formula_asked (map string_bytes words.now) }
{
    match words {
        [] => Err(Mistake::NoFormula),
        [_] => Ok(Command::Formula),
        _ => Err(Mistake::TooMany),
    }
}

// The model that words name which are to be MODEL and the path of a file.
fn model_and_file(words: &[String], missing: Mistake) -> Result<ModelName, Mistake>
    ensures { result ≡ model_and_file missing (map string_bytes words.now) }
{
    match words {
        [] => Err(Mistake::NoModel),
        [_] => Err(missing),
        [name, _] => ModelName::try_from(name.as_str()),
        _ => Err(Mistake::TooMany),
    }
}

// What the words of the command line, after the program's name, ask for.
pub fn command(args: &[String]) -> Result<Command, Mistake>
    ensures { result ≡ command_of (map string_bytes args.now) }
{
    let (word, words) = args.split_first().ok_or(Mistake::NoCommand)?;
    match Verb::try_from(word.as_str())? {
        Verb::Help => help_asked(words),
        Verb::Print(form) => print_asked(form, words),
        Verb::Rounds => rounds_asked(words),
        Verb::Formula => formula_asked(words),
        Verb::Trial => Ok(Command::Trial(model_and_file(words, Mistake::NoCalls)?)),
        Verb::Check => Ok(Command::Check(model_and_file(words, Mistake::NoLimits)?)),
    }
}
