ghost use Rattle.std.specs.Prelude.{◌≡◌, ◌++◌, codes};
ghost use Rattle.console.specs.Commands.{verb_of, number_of, ladder_named, model_named, kind_of, preference_of};

use crate::command::{Form, LadderNumbers, Mistake, ModelName, Verb};
use rounds_text::kind::Kind;
use rules::preference::Preference;
use rules::rounding::Rounding;
use text::number::number;

// The command that a word spells.
impl<'a> TryFrom<&'a str> for Verb {
    type Error = Mistake;

    ghost try_from_gives = { λ word r. r ≡ verb_of word.now };

    fn try_from(word: &'a str) -> Result<Verb, Mistake> {
        match word {
            "show" => Ok(Verb::Print(Form::Listing)),
            "write" => Ok(Verb::Print(Form::Text)),
            "rounds" => Ok(Verb::Rounds),
            "formula" => Ok(Verb::Formula),
            "trial" => Ok(Verb::Trial),
            "check" => Ok(Verb::Check),
            "help" => Ok(Verb::Help),
            _ => Err(Mistake::NoSuchCommand),
        }
    }
}

// The number that a part of a name writes, if it is one. Where it is none, no place is told, so each part is asked as field 0.
fn number_of(text: &str) -> Option<u32>
    ensures { result ≡ number_of text.now }
{
    number(text.as_bytes(), 0).ok()
}

// The ladder that `ladder:` and these numbers name, if they are three.
fn ladder_named(numbers: &str) -> Option<ModelName>
    ensures { result ≡ ladder_named (codes "ladder:" ++ numbers.now) }
{
    let (rungs, rest) = numbers.split_once(':')?;
    let (denominator, weight) = rest.split_once(':')?;
    Some(ModelName::Ladder(LadderNumbers {
        rungs: number_of(rungs)? as usize,
        denominator: number_of(denominator)?,
        weight: number_of(weight)?,
    }))
}

// The model that a name gives: a ladder, or the file at this path.
impl<'a> TryFrom<&'a str> for ModelName {
    type Error = Mistake;

    ghost try_from_gives = { λ name r. r ≡ model_named name.now };

    fn try_from(name: &'a str) -> Result<ModelName, Mistake> {
        match name.strip_prefix("ladder:") {
            Some(numbers) => ladder_named(numbers).ok_or(Mistake::NoLadder),
            None => Ok(ModelName::File),
        }
    }
}

// The rule that a word names. By a function, as the preference: both are types of other crates, for which no impl can stand here.
pub(crate) fn kind(word: &str) -> Option<Kind>
    ensures { result ≡ kind_of word.now }
{
    match word {
        "down" => Some(Kind::Parts(Rounding::Down)),
        "up" => Some(Kind::Parts(Rounding::Up)),
        "marks" => Some(Kind::Marks),
        _ => None,
    }
}

// The preference that a word names.
pub(crate) fn preference(word: &str) -> Option<Preference>
    ensures { result ≡ preference_of word.now }
{
    match word {
        "greater" => Some(Preference::Greater),
        "lesser" => Some(Preference::Lesser),
        _ => None,
    }
}
