ghost use Rattle.std.specs.Prelude.{◌≡◌, ℕ, List, Some, IfOk, string_bytes};
ghost use Rattle.ladder.specs.Refusals.{fault_number};
ghost use Rattle.layers.specs.HoldAnswers as hold_answers;
ghost use Rattle.printing.specs.Words.{field_words, line_words, file_words, ladder_words, hold_words, field_text, refused_at, file_refusal, refusal_line};

use ladder::fault::LadderFault;
use layers::fault::HoldFault;
use std::alloc::{AllocError, Global};
use std::fmt;
use text::fault::{FieldFault, FieldPlace, FileFault, LineFault};

// The words on a field's fault. Those on a field's, a line's and a text's fault are functions, not impls of `Refusal`: a
// text's refusal tells a line and a place beside the words, so it is no `Refusal`, and the words lie one in another.
fn field_words(fault: &FieldFault) -> &'static str
    ensures { result.now ≡ field_words fault.now }
{
    match fault {
        FieldFault::Number(_) =>
            "this is no number; write 0, or one to seven digits that do not start with 0",
        FieldFault::Labels(_) => {
            "these are no labels; write letters from a to p in strictly ascending order, or - for none"
        }
    }
}

// The words on a line's fault.
fn line_words(fault: &LineFault) -> &'static str
    ensures { result.now ≡ line_words fault.now }
{
    match fault {
        LineFault::Word => {
            "this word may not stand here; mdp comes first, then for each state s, then for each of its choices c and its b lines, and end last; a tab, no blank, ends the word"
        }
        LineFault::Fields => {
            "this line has too few or too many fields; mdp and b have two fields after the word, s has one, c and end have none, and one tab parts two fields"
        }
        LineFault::Field(fault) => field_words(fault),
        LineFault::Range => {
            "a number is out of range; there are 1 to 512 states, the denominator is 1 to 1000000, a target is below the number of states, a weight is 1 to the denominator"
        }
        LineFault::Order => {
            "this target is not above the target before it; sort the b lines of a choice by their targets, and name each target once"
        }
        LineFault::Sum => {
            "the weights of the choice that ends above this line do not add up to the denominator; change its b lines until they do"
        }
        LineFault::States => {
            "this is one state more than the mdp line says; raise the number of states there, or take this state out"
        }
        LineFault::Choices =>
            "this is choice number 2049, and a text has 2048 at the most; take choices out",
        LineFault::Branches =>
            "this is branch number 4097, and a text has 4096 at the most; take branches out",
    }
}

// The words on a text's fault.
fn file_words(fault: &FileFault) -> &'static str
    ensures { result.now ≡ file_words fault.now }
{
    match fault {
        FileFault::Long => "the text is longer than 65536 bytes; make it shorter",
        FileFault::Unended => "the text does not end with a line feed; end its last line with one",
        FileFault::Line(at) => line_words(&at.fault),
        FileFault::Missing => {
            "the text ends before all of its states have come; add the states that are missing, or lower the number of states in the mdp line"
        }
        FileFault::NoEnd => "the text stops without an end line; write end as its last line",
    }
}

// A fault with no place in a text: a user is told of it by its number and in words.
pub trait Refusal {
    // the number of the fault
    ghost number: { Self → ℕ };

    // the words on it
    ghost words: { Self → List ℕ };

    // The number of the fault.
    fn number(&self) -> u8
        ensures { result ≡ number self.now };

    // The words on it: what is wrong, and what to do.
    fn words(&self) -> &'static str
        ensures { result.now ≡ words self.now };
}

// What is told of a ladder's fault.
impl Refusal for LadderFault {
    ghost number = { fault_number };

    ghost words = { ladder_words };

    fn number(&self) -> u8 {
        LadderFault::number(self)
    }

    fn words(&self) -> &'static str {
        match self {
            LadderFault::Rungs => {
                "a ladder has 1 to 511 rungs; change the first number of ladder:RUNGS:DENOMINATOR:WEIGHT"
            }
            LadderFault::Denominator => {
                "the denominator of a ladder is 1 to 1000000; change the second number of ladder:RUNGS:DENOMINATOR:WEIGHT"
            }
            LadderFault::Weight => {
                "the weight of a ladder is 1 to its denominator; change the third number of ladder:RUNGS:DENOMINATOR:WEIGHT"
            }
        }
    }
}

// What is told of a hold's fault.
impl Refusal for HoldFault {
    ghost number = { hold_answers.fault_number };

    ghost words = { hold_words };

    fn number(&self) -> u8 {
        HoldFault::number(self)
    }

    fn words(&self) -> &'static str {
        match self {
            HoldFault::Held => {
                "there is no such state to hold; states are numbered from 0 to one below how many there are"
            }
        }
    }
}

// Where a fault stands in its line, if it is one of a field.
#[derive(Clone, Copy)]
struct InField(Option<FieldPlace>);

impl fmt::Display for InField {
    ghost output = { λ p. Some (field_text p.0) };

    fn fmt<W: fmt::Write>(&self, f: &mut fmt::Formatter<W>) -> fmt::Result {
        match self.0 {
            None => Ok(()),
            Some(FieldPlace { field, length }) => write!(f, " field {field} length {length}"),
        }
    }
}

// What a text's refusal begins with: the number and the place of its fault.
#[derive(Clone, Copy)]
pub struct Refused(pub FileFault);

impl fmt::Display for Refused {
    ghost output = { λ r. Some (refused_at r.0) };

    fn fmt<W: fmt::Write>(&self, f: &mut fmt::Formatter<W>) -> fmt::Result {
        let Refused(fault) = self;
        let number = fault.number();
        let line = fault.line();
        let field = InField(fault.field());
        write!(f, "refused {number} line {line}{field}")
    }
}

// The first line of a text's refusal: its number, its place and its words.
pub(crate) fn file_refusal(heap: Global, fault: &FileFault) -> Result<String, AllocError>
    ensures { IfOk result (λ s. string_bytes s ≡ file_refusal fault.now) }
{
    let refused = Refused(*fault);
    let words = file_words(fault);
    format!(in heap; "{refused}: {words}")
}

// The line of a refusal that has no place in a text: its number and its words.
pub fn refusal_line<F: Refusal>(heap: Global, fault: &F) -> Result<String, AllocError>
    ensures { IfOk result (λ s. string_bytes s ≡ refusal_line (F.number fault.now) (F.words fault.now)) }
{
    let number = fault.number();
    let words = fault.words();
    format!(in heap; "refused {number}: {words}")
}
