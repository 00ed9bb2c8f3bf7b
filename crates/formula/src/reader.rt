ghost use Rattle.std.specs.Prelude.{◌≡◌, List, length, Some, None, MatchResult};
ghost use Rattle.formula.specs.Questions.{fault_by};
ghost use Rattle.formula.specs.Answers.{FormulaAnswer, JudgeAnswer, CountAnswer, Surveyed};
ghost use Rattle.records.specs.declared.record.Record.{Record as RecordValue};

use crate::cursor::Cursor;
use crate::formulas::state_formula;
use crate::reading::Reading;
use records::fault::{FormulaFault, JudgeFault};
use records::record::Record;

// How many records reading the text of a formula fills, where so many are lent: it asks all that `read_formula` asks and
// fills none.
pub fn record_count(text: &[u8], lent: usize) -> Result<usize, JudgeFault>
    ensures { CountAnswer text.now lent result }
{
    if !(1..=1024).contains(&text.len()) {
        return Err(JudgeFault::Length);
    }
    Ok(formula_count(text, lent)?)
}

// The same of a text of any length.
fn formula_count(text: &[u8], lent: usize) -> Result<usize, FormulaFault>
    ensures { (records : List RecordValue) → length records ≡ lent → (left : List RecordValue) × FormulaAnswer text.now records left result }
{
    let reading = survey(text)?;
    check(reading, lent)?;
    Ok(reading.count)
}

// Reads the text of a formula of 1 to 1,024 bytes and fills the lent records with those of its state formulas: all of
// the left part, then the right, then the whole. It answers how many they are; a refusal changes no record. The text is
// read once to be asked, and once more to fill the records.
pub fn read_formula(text: &[u8], records: &mut [Record]) -> Result<usize, JudgeFault>
    ensures { JudgeAnswer text.now records.old records.new result }
{
    let count = record_count(text, records.len())?;
    state_formula(Cursor { text, at: 0 }, records, 0).unwrap();
    Ok(count)
}

// What is known of the formula that the whole text spells.
fn survey(text: &[u8]) -> Result<Reading, FormulaFault>
    ensures { Surveyed text.now result }
{
    match state_formula(Cursor { text, at: 0 }, &mut [], 0) {
        Ok(reading) if reading.end == text.len() => Ok(reading),
        Ok(reading) => Err(FormulaFault::NoFormula { place: reading.end }),
        Err(place) => Err(FormulaFault::NoFormula { place }),
    }
}

// Asks the questions in turn, where so many records are lent: the first whose answer is no refuses.
fn check(reading: Reading, lent: usize) -> Result<(), FormulaFault>
    ensures { MatchResult result (λ _. fault_by reading.large reading.depth reading.count lent reading.unbounded ≡ None) (λ e. fault_by reading.large reading.depth reading.count lent reading.unbounded ≡ Some e) }
{
    if let Some(place) = reading.large {
        return Err(FormulaFault::Number { place });
    }
    if reading.depth > 32 {
        return Err(FormulaFault::Depth);
    }
    if reading.count > 64 || reading.count > lent {
        return Err(FormulaFault::Records);
    }
    if let Some(place) = reading.unbounded {
        return Err(FormulaFault::Until { place });
    }
    Ok(())
}
