ghost use Rattle.std.specs.Prelude.{IfOk};
ghost use Rattle.std.specs.Option.{option_map};
ghost use Rattle.console.specs.Replies.{answer_of, Gives, form_answer, TextAnswer, ModelAnswer};
ghost use Rattle.console.specs.declared.command.Form.TheVariants.{Text};

use crate::command::{Form, ModelName};
use crate::named::Named;
use crate::reply::Reply;
use crate::report::Report;
use model::limits::TEXT_BYTES;
use model::source::Source;
use printing::caret::refusal_text;
use printing::listing::{model_text, show_text};
use std::alloc::{AllocError, Global};
use tables::copy::CopyFault;
use tables::tables::Tables;

// The reply on a text as model text, written by the call that loads it.
fn written(heap: Global, text: &[u8]) -> Result<Reply, AllocError>
    ensures { IfOk result (λ a. TextAnswer (Gives (form_answer Text)) text.now (answer_of a)) }
{
    let mut tables = Tables::new(heap)?;
    let mut out = vec![in heap; 0u8; TEXT_BYTES]?;
    match tables.load_and_write(text, out.as_mut_slice()) {
        Ok(length) => {
            out.truncate(length);
            Ok(Reply::Printed(out))
        }
        Err(CopyFault::Load(fault)) => Ok(Reply::Refused(refusal_text(heap, text, &fault)?)),
        Err(CopyFault::Write(_)) => unreachable!(),
    }
}

// A model is printed in a form.
impl Report for Form {
    ghost answers = { λ f. Gives (form_answer f) };

    fn on<S: Source>(&self, heap: Global, source: &S) -> Result<Reply, AllocError> {
        let text = model_text(heap, source)?;
        match self {
            Form::Text => Ok(Reply::printed(text)),
            Form::Listing => Ok(Reply::printed(show_text(heap, source, text.len())?)),
        }
    }
}

// The reply that prints a model that is named. A file as model text is left to the call of the tables that loads and writes,
// which promises that the bytes that were read come out.
pub(crate) fn print_reply(heap: Global, form: Form, model: &Named<'_>) -> Result<Reply, AllocError>
    ensures { IfOk result (λ a. ModelAnswer (Gives (form_answer form)) model.now.name model.now.file.path.now (option_map (λ x. x.now) model.now.file.bytes) (answer_of a)) }
{
    match (form, model.name, model.file.bytes) {
        (Form::Text, ModelName::File, Some(text)) => written(heap, text),
        _ => model.reply(heap, &form),
    }
}
