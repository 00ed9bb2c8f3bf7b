ghost use Rattle.std.specs.Prelude.{◌≡◌, IfOk};
ghost use Rattle.std.specs.Result.{result_map_both};
ghost use Rattle.ladder.specs.Refusals.{ladder_fault};
ghost use Rattle.console.specs.Replies.{answer_of, model_in, ladder_found, TextFound};

use crate::command::LadderNumbers;
use crate::reply::Reply;
use ladder::ladder::Ladder;
use printing::caret::refusal_text;
use std::alloc::{AllocError, Global};
use tables::tables::Tables;

// A model that was found: tables with the content of a text, or a ladder.
#[derive(Drop)]
pub(crate) enum Found {
    Tables(Tables),
    Ladder(Ladder),
}

// The ladder of three numbers, or the reply with its refusal.
pub(crate) fn ladder_found(
    heap: Global,
    numbers: LadderNumbers,
) -> Result<Result<Found, Reply>, AllocError>
    ensures { IfOk result (λ r. result_map_both model_in answer_of r ≡ ladder_found numbers.rungs numbers.denominator numbers.weight (ladder_fault numbers.rungs numbers.denominator numbers.weight)) }
{
    match Ladder::new(numbers.rungs, numbers.denominator, numbers.weight) {
        Ok(ladder) => Ok(Ok(Found::Ladder(ladder))),
        Err(fault) => Ok(Err(Reply::refused(heap, &fault)?)),
    }
}

// The tables with the content that a text describes, or the reply with its refusal.
pub(crate) fn text_found(heap: Global, text: &[u8]) -> Result<Result<Found, Reply>, AllocError>
    ensures { IfOk result (λ r. TextFound text.now (result_map_both model_in answer_of r)) }
{
    let mut tables = Tables::new(heap)?;
    match tables.load(text) {
        Ok(()) => Ok(Ok(Found::Tables(tables))),
        Err(fault) => Ok(Err(Reply::Refused(refusal_text(heap, text, &fault)?))),
    }
}
