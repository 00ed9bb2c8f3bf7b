ghost use Rattle.std.specs.Prelude.{◌≡◌};
ghost use Rattle.text.specs.Words.{word_read, arity};

use crate::fault::LineFault;

// The word that a line begins with: the kind of its record.
#[derive(Clone, Copy, PartialEq, Eq, Debug)]
pub enum Word {
    Mdp,
    State,
    Choice,
    Branch,
    End,
}

// The word that some bytes spell; no other bytes are one.
impl<'a> TryFrom<&'a [u8]> for Word {
    type Error = LineFault;

    ghost try_from_gives = { λ field r. r ≡ word_read field.now };

    #[tactic(auto, using(crate::proofs::Spellings::spellings))]
    fn try_from(field: &'a [u8]) -> Result<Word, LineFault> {
        match field {
            b"mdp" => Ok(Word::Mdp),
            b"s" => Ok(Word::State),
            b"c" => Ok(Word::Choice),
            b"b" => Ok(Word::Branch),
            b"end" => Ok(Word::End),
            _ => Err(LineFault::Word),
        }
    }
}

impl Word {
    // How many fields a line with this word has, the word among them.
    pub fn fields(self) -> usize
        ensures { result ≡ arity self }
    {
        match self {
            Word::Choice | Word::End => 1,
            Word::State => 2,
            Word::Mdp | Word::Branch => 3,
        }
    }
}
