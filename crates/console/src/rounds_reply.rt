ghost use Rattle.std.specs.Prelude.{◌≡◌, map, IfOk, vec_items, string_bytes};
ghost use Rattle.std.specs.Option.{option_map};
ghost use Rattle.std.specs.Result.{result_map_both};
ghost use Rattle.console.specs.Replies.{answer_of, Gives, rounds_answer, values_given, RoundsAnswer};

use crate::command::RoundsMistake;
use crate::help::mistake_text;
use crate::named::Named;
use crate::parse::word_at;
use crate::reply::Reply;
use crate::report::Report;
use model::source::Source;
use rounds_text::given::{are_marks, numbers};
use rounds_text::kind::Kind;
use rounds_text::request::Request;
use std::alloc::{AllocError, Global};

// Rounds that are asked for, and the numbers that they begin with.
#[derive(Clone, Copy)]
struct RoundsFrom<'a> {
    request: Request,
    numbers: &'a [u64],
}

// What is printed of rounds on a model.
impl Report for RoundsFrom<'_> {
    ghost answers = { λ r. Gives (rounds_answer r.request r.numbers.now) };

    fn on<S: Source>(&self, heap: Global, source: &S) -> Result<Reply, AllocError> {
        match self.request.text(heap, source, self.numbers)? {
            Ok(text) => Ok(Reply::printed(text)),
            Err(fault) => Reply::refused(heap, &fault),
        }
    }
}

// The numbers that a word gives for values, or what is wrong with it.
fn values(
    heap: Global,
    kind: Kind,
    word: &[u8],
) -> Result<Result<Vec<u64>, RoundsMistake>, AllocError>
    ensures { IfOk result (λ v. result_map_both vec_items (λ m. m) v ≡ values_given kind word.now) }
{
    match (numbers(heap, word)?, kind) {
        (None, _) => Ok(Err(RoundsMistake::NoValues)),
        (Some(values), Kind::Marks) if !are_marks(values.as_slice()) => Ok(Err(
            RoundsMistake::NoMarks,
        )),
        (Some(values), _) => Ok(Ok(values)),
    }
}

// The reply of rounds on a model, given the words of the command line.
pub(crate) fn rounds_reply(
    heap: Global,
    request: Request,
    model: &Named<'_>,
    args: &[String],
) -> Result<Reply, AllocError>
    ensures { IfOk result (λ a. RoundsAnswer request model.now.name model.now.file.path.now (option_map (λ x. x.now) model.now.file.bytes) (map string_bytes args.now) (answer_of a)) }
{
    match values(heap, request.kind, word_at(args, 5).as_bytes())? {
        Ok(values) => {
            let numbers = values.as_slice();
            model.reply(heap, &RoundsFrom { request, numbers })
        }
        Err(mistake) => Ok(Reply::Wrong(mistake_text(heap, mistake.into(), args)?)),
    }
}
