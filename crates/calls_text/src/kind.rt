ghost use Rattle.std.specs.Prelude.{◌≡◌, ok_or};
ghost use Rattle.calls_text.specs.declared.mistake.Wrong.TheVariants.{Word};
ghost use Rattle.calls_text.specs.Words.{kind_of};

use crate::mistake::Wrong;

// What a line asks for, by its first word: that a state is held, or one of the calls of a trial.
#[derive(Clone, Copy, PartialEq, Eq, Debug)]
pub enum LineKind {
    Hold,
    Start,
    Advance,
    Ends,
    Verdict,
    Judge,
}

// The kind of a line, by the word that it begins with; any other word is wrong.
impl<'a> TryFrom<&'a [u8]> for LineKind {
    type Error = Wrong;

    ghost try_from_gives = { λ word r. r ≡ ok_or (kind_of word.now) Word };

    #[tactic(auto, using(crate::proofs::Spellings::spelled))]
    fn try_from(word: &'a [u8]) -> Result<LineKind, Wrong> {
        match word {
            b"hold" => Ok(LineKind::Hold),
            b"start" => Ok(LineKind::Start),
            b"advance" => Ok(LineKind::Advance),
            b"ends" => Ok(LineKind::Ends),
            b"verdict" => Ok(LineKind::Verdict),
            b"judge" => Ok(LineKind::Judge),
            _ => Err(Wrong::Word),
        }
    }
}
