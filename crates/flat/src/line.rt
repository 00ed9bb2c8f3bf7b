ghost use Rattle.std.specs.Prelude.{◌≡◌, ◌≤◌, ◌↔◌, ◌&&◌, List, length, IsTrue, IsOk, IfOk, IfErr, nat_lt};
ghost use Rattle.model.specs.Mdp.{total};
ghost use Rattle.text.specs.Cuts.{Line, fields};
ghost use Rattle.text.specs.Fields.{between};
ghost use Rattle.text.specs.Questions.{closed};
ghost use Rattle.text.specs.Words.{arity};
ghost use Rattle.text.specs.declared.fault.LineFault.TheVariants.{Fields, Sum};
ghost use Rattle.text.specs.declared.word.Word.TheVariants as kind;
ghost use Rattle.flat.specs.declared.loader.Loader.{Loader};
ghost use Rattle.flat.specs.Readings.{row_of, goes_above, Follows, Admits, NumbersRead, LineRead, RestRead};

use crate::loader::{Header, Loader, Record};
use model::branch::Branch;
use model::limits::{BRANCHES, CHOICES, DENOMINATOR, STATES};
use text::cut::{field, field_count};
use text::fault::LineFault;
use text::labels::labels;
use text::number::number;
use text::word::Word;

// The sum of the weights of a row.
fn row_total(row: &[Branch]) -> u64
    requires { length row.now ≤ 4096 }
    ensures { result ≡ total row.now }
{
    let mut sum: u64 = 0;
    for branch in row {
        sum += u64::from(branch.weight);
    }
    sum
}

// Is the target above the last of a row?
fn is_above(row: &[Branch], target: usize) -> bool
    ensures { result ≡ goes_above row.now target }
{
    row.last().is_none_or(|branch| branch.target < target)
}

// Refuses a line whose number of fields is not that of its word (4).
fn check_fields(line: &[u8], word: Word) -> Result<(), LineFault>
    ensures passed { IsOk result ↔ (length (fields line.now) ≡ arity word) }
    ensures refused { IfErr result (λ fault. fault ≡ Fields) }
{
    if field_count(line) != word.fields() {
        return Err(LineFault::Fields);
    }
    Ok(())
}

// The numbers of fields 1 and 2, if they are lawful (5).
fn two_numbers(line: &[u8]) -> Result<(u32, u32), LineFault>
    ensures { NumbersRead (fields line.now) result }
{
    let first = number(field(line, 1), 1)?;
    let second = number(field(line, 2), 2)?;
    Ok((first, second))
}

// Are the numbers of states and of units within their limits?
fn header_in_range(states: u32, denominator: u32) -> bool
    ensures { result ≡ (between 1 512 states && between 1 1000000 denominator) }
{
    (1..=STATES as u32).contains(&states) && (1..=DENOMINATOR).contains(&denominator)
}

// A header: it has its fields (4), and its numbers are lawful (5) and in range (6).
fn read_header(line: &[u8]) -> Result<Record, LineFault>
    ensures read { (loader : Loader) → RestRead kind.Mdp loader (fields line.now) result }
    ensures admitted { (loader : Loader) → IfOk result (Admits loader) }
{
    check_fields(line, Word::Mdp)?;
    let (states, denominator) = two_numbers(line)?;
    if !header_in_range(states, denominator) {
        return Err(LineFault::Range);
    }
    Ok(Record::Header(Header {
        states: states as usize,
        denominator,
    }))
}

impl Loader<'_> {
    // The row that is open, so far; empty where none is.
    fn open_row(&self) -> &[Branch]
        ensures { result.now ≡ row_of self.now }
    {
        match self.last {
            Some(Word::Choice | Word::Branch) => {
                let first = self.flat.offsets.last().copied().unwrap_or(0);
                &self.flat.branches.as_slice()[first..]
            }
            _ => &[],
        }
    }

    // Is the last line no branch, or does the row that it ends sum to the denominator?
    fn row_closes(&self) -> bool
        ensures { (before : List Line) → Follows self.now before → result ≡ closed before }
    {
        self.last != Some(Word::Branch)
            || row_total(self.open_row()) == u64::from(self.header.denominator)
    }

    // Refuses a line after a row that does not sum up (9).
    fn check_row(&self) -> Result<(), LineFault>
        ensures passed { (before : List Line) → Follows self.now before
            → IsOk result ↔ IsTrue (closed before) }
        ensures refused { IfErr result (λ fault. fault ≡ Sum) }
    {
        if !self.row_closes() {
            return Err(LineFault::Sum);
        }
        Ok(())
    }

    // A state: it has its fields (4), its labels are lawful (7), the row before it sums up (9), and the header has states
    // left (10).
    fn read_state(&self, line: &[u8]) -> Result<Record, LineFault>
        ensures read { RestRead kind.State self.now (fields line.now) result }
        ensures admitted { IfOk result (Admits self.now) }
    {
        check_fields(line, Word::State)?;
        let labels = labels(field(line, 1), 1)?;
        self.check_row()?;
        if self.flat.labels.len() >= self.header.states {
            return Err(LineFault::States);
        }
        Ok(Record::State(labels))
    }

    // A choice: it has its fields (4), the row before it sums up (9), and there are few enough (11).
    fn read_choice(&self, line: &[u8]) -> Result<Record, LineFault>
        ensures read { RestRead kind.Choice self.now (fields line.now) result }
        ensures admitted { IfOk result (Admits self.now) }
    {
        check_fields(line, Word::Choice)?;
        self.check_row()?;
        if self.flat.offsets.len() >= CHOICES {
            return Err(LineFault::Choices);
        }
        Ok(Record::Choice)
    }

    // Is the target a state, and the weight 1 to the denominator?
    fn branch_in_range(&self, target: usize, weight: u32) -> bool
        ensures { result ≡ (nat_lt target self.now.header.states
            && between 1 self.now.header.denominator weight) }
    {
        target < self.header.states && (1..=self.header.denominator).contains(&weight)
    }

    // A branch: it has its fields (4), its numbers are lawful (5) and in range (6), its target is above the last of its
    // row (8), and there are few enough (12).
    fn read_branch(&self, line: &[u8]) -> Result<Record, LineFault>
        ensures read { RestRead kind.Branch self.now (fields line.now) result }
        ensures admitted { IfOk result (Admits self.now) }
    {
        check_fields(line, Word::Branch)?;
        let (number, weight) = two_numbers(line)?;
        let target = number as usize;
        if !self.branch_in_range(target, weight) {
            return Err(LineFault::Range);
        }
        if !is_above(self.open_row(), target) {
            return Err(LineFault::Order);
        }
        if self.flat.branches.len() >= BRANCHES {
            return Err(LineFault::Branches);
        }
        Ok(Record::Branch(Branch { target, weight }))
    }

    // The end: it has its fields (4), and the row before it sums up (9).
    fn read_end(&self, line: &[u8]) -> Result<Record, LineFault>
        ensures read { RestRead kind.End self.now (fields line.now) result }
        ensures admitted { IfOk result (Admits self.now) }
    {
        check_fields(line, Word::End)?;
        self.check_row()?;
        Ok(Record::End)
    }

    // What a line says, if no question refuses it (3 to 12). The word of the line before and the word of this line decide
    // together whether it may stand here (3), and which reader asks the other questions.
    pub(crate) fn read_line(&self, line: &[u8]) -> Result<Record, LineFault>
        ensures read { (before : List Line) → Follows self.now before → LineRead before (fields line.now) result }
        ensures admitted { IfOk result (Admits self.now) }
    {
        let word = Word::try_from(field(line, 0))?;
        match (self.last, word) {
            (None, Word::Mdp) => read_header(line),
            (Some(Word::Mdp | Word::Branch), Word::State) => self.read_state(line),
            (Some(Word::State | Word::Branch), Word::Choice) => self.read_choice(line),
            (Some(Word::Choice | Word::Branch), Word::Branch) => self.read_branch(line),
            (Some(Word::Branch), Word::End) => self.read_end(line),
            _ => Err(LineFault::Word),
        }
    }
}
