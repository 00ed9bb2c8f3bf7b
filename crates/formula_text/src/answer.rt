ghost use Rattle.std.specs.Prelude.{IfOk};
ghost use Rattle.formula_text.specs.Answers.{TableAnswer};

use crate::table::records_table;
use formula::reader::read_formula;
use records::fault::JudgeFault;
use records::record::BLANK;
use std::alloc::{AllocError, Global};

// What is printed of a formula's text: the table of its records, or the fault that is to be told. Here and where the text is
// marked `heap` and `text` are two arguments: the heap goes to whatever wants memory and is no part of a text.
pub fn formula_table(heap: Global, text: &[u8]) -> Result<Result<String, JudgeFault>, AllocError>
    ensures { IfOk result (λ a. TableAnswer text.now a) }
{
    // A formula has at most 64 records, so an array of a fixed length does, and no memory is wanted for it.
    let mut records = [BLANK; 64];
    match read_formula(text, &mut records) {
        Ok(count) => Ok(Ok(records_table(heap, &records[..count])?)),
        Err(fault) => Ok(Err(fault)),
    }
}
