ghost use Rattle.std.specs.Prelude.{◌≡◌, Some};
ghost use Rattle.calls_text.specs.Mistakes.{wrong_words, mistake_text};

use crate::kind::LineKind;
use std::fmt;

// What is wrong with a line: it begins with none of the words of lines, it holds a state after the first call, or it is not
// of the form that its first word asks for.
#[derive(Clone, Copy, PartialEq, Eq, Debug)]
pub enum Wrong {
    Word,
    Late,
    Form(LineKind),
}

// What is wrong with a text of calls: the first line that is wrong, by its number from 1.
#[derive(Clone, Copy, PartialEq, Eq, Debug)]
pub struct Mistake {
    pub line: usize,
    pub wrong: Wrong,
}

// The words on a wrong line: what is wrong, and what to write.
fn wrong_words(wrong: Wrong) -> &'static str
    ensures { result.now ≡ wrong_words wrong }
{
    match wrong {
        Wrong::Word => {
            "no line begins with this word; write hold, start, advance, ends, verdict or judge, or # before a remark"
        }
        Wrong::Late => {
            "a state cannot be held after a call; write all hold lines before the first call"
        }
        Wrong::Form(LineKind::Hold) => "this holds no state; write hold STATE, as hold 3",
        Wrong::Form(LineKind::Start) => {
            "this starts no query; write start best LEFT RIGHT or start worst LEFT RIGHT with a digit for each state, 1 for one in the set and 0 for any other, or - for none, as start best 111 010"
        }
        Wrong::Form(LineKind::Advance) => {
            "this advances by no count; write advance COUNT, a number of one to ten digits that does not start with a needless 0, as advance 100"
        }
        Wrong::Form(LineKind::Ends) =>
            "this asks for the ends at no state; write ends STATE, as ends 0",
        Wrong::Form(LineKind::Verdict) => {
            "this asks for no verdict; write verdict STATE COMPARISON BOUND, where COMPARISON is <, <=, > or >=, as verdict 0 >= 900000000"
        }
        Wrong::Form(LineKind::Judge) => {
            "this asks for no judge; write judge FORMULA, as judge P>0[Xa], or judge FORMULA RECORDS SCRATCH OUT with at most 64 records and at most 65536 bytes of scratch and of output"
        }
    }
}

// A mistake is told by its line and in words.
impl fmt::Display for Mistake {
    ghost output = { λ m. Some (mistake_text m) };

    fn fmt<W: fmt::Write>(&self, f: &mut fmt::Formatter<W>) -> fmt::Result {
        let line = self.line;
        let words = wrong_words(self.wrong);
        write!(f, "line {line}: {words}")
    }
}
