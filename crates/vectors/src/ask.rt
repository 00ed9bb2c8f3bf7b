use crate::chance::Places;
use crate::failure::Failure;
use crate::judged;
use crate::query::{Query, marks};
use crate::spread::values;
use model::source::Source;
use records::comparison::Comparison;
use rules::parts::Parts;
use rules::preference::Preference;
use rules::rounding::Rounding;
use std::alloc::Global;
use trial::aim::Aim;

// The number that a word writes.
pub(crate) fn number(word: &str) -> Result<u32, Failure> {
    word.parse::<u32>().map_err(|_| Failure::NoQuestion)
}

// For whom a query asks. Words are read by functions here and below, and not by impls of `FromStr` or `TryFrom` for what they
// give: the words are those of this program's questions, and the crates of the types know no words.
fn aim(word: &str) -> Result<Aim, Failure> {
    match word {
        "best" => Ok(Aim::Best),
        "worst" => Ok(Aim::Worst),
        _ => Err(Failure::NoQuestion),
    }
}

// The comparison that a word spells.
fn comparison(word: &str) -> Result<Comparison, Failure> {
    match word {
        "<" => Ok(Comparison::Below),
        "<=" => Ok(Comparison::AtMost),
        ">" => Ok(Comparison::Above),
        ">=" => Ok(Comparison::AtLeast),
        _ => Err(Failure::NoQuestion),
    }
}

// The rule of parts of two words.
fn rule(rounding: &str, preference: &str) -> Result<Parts, Failure> {
    Ok(Parts {
        rounding: match rounding {
            "down" => Rounding::Down,
            "up" => Rounding::Up,
            _ => return Err(Failure::NoQuestion),
        },
        preference: match preference {
            "greater" => Preference::Greater,
            "lesser" => Preference::Lesser,
            _ => return Err(Failure::NoQuestion),
        },
    })
}

// The query of these words.
fn query(heap: Global, who: &str, rounds: &str, left: &str, right: &str) -> Result<Query, Failure> {
    Ok(Query {
        left: marks(heap, left)?,
        right: marks(heap, right)?,
        aim: aim(who)?,
        rounds: u64::from(number(rounds)?),
    })
}

// Asks a question, given in words, over a source. Here and in what is called with them `heap` and `source` are two arguments,
// and so are `heap` and `digits`: the heap goes to whatever wants memory, and tells nothing of a source or of a row of digits.
pub(crate) fn ask<S: Source>(heap: Global, source: &S, words: &[&str]) -> Result<String, Failure> {
    match words {
        ["ends", who, rounds, left, right] => {
            query(heap, who, rounds, left, right)?.ends(heap, source, Places::Nine)
        }
        ["nearest", who, rounds, left, right] => {
            query(heap, who, rounds, left, right)?.ends(heap, source, Places::Six)
        }
        ["verdict", who, rounds, left, right, state, sign, bound] => {
            let state = number(state)? as usize;
            let comparison = comparison(sign)?;
            let bound = u64::from(number(bound)?);
            let query = query(heap, who, rounds, left, right)?;
            let verdict = query.verdict(source, state, comparison, bound)?;
            Ok(String::from_str(heap, verdict)?)
        }
        ["judge", formula] => judged::verdicts(heap, source, formula),
        ["ends", formula] => judged::ends(heap, source, formula, Places::Nine),
        ["nearest", formula] => judged::ends(heap, source, formula, Places::Six),
        ["rounds", rounding, preference, count, starts] => {
            let rule = rule(rounding, preference)?;
            values(heap, source, rule, u64::from(number(count)?), starts)
        }
        _ => Err(Failure::NoQuestion),
    }
}
