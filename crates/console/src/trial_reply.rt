ghost use Rattle.std.specs.Prelude.{IfOk};
ghost use Rattle.std.specs.Option.{option_map};
ghost use Rattle.calls_text.specs.Texts.{contents};
ghost use Rattle.calls_text.specs.VerdictEnds.{ReplaysReadOff};
ghost use Rattle.console.specs.Replies.{answer_of, CallsReplayed, CallsAnswer};

use crate::given::GivenFile;
use crate::help::wrong_line_text;
use crate::reply::Reply;
use crate::report::Report;
use calls_text::hold::hold_states;
use calls_text::print::answers_text;
use calls_text::read::read_calls;
use calls_text::script::Script;
use layers::hold::Hold;
use model::source::Source;
use replay::replay::replay;
use std::alloc::{AllocError, Global};

// The file of a text of calls.
#[derive(Clone, Copy)]
pub(crate) struct Calls<'a>(pub GivenFile<'a>);

// Holds the states of a script in a layer over the source, and makes its calls on a trial of that. `heap` and `source` stay two
// arguments: only the source goes under the layer, and from there on the heap goes beside the layer.
fn trialed<S: Source>(heap: Global, source: &S, script: Script) -> Result<Reply, AllocError>
    requires { ReplaysReadOff script }
    ensures { IfOk result (λ a. CallsReplayed (S.Source.model source.now) (contents script) (answer_of a)) }
{
    let Script { holds, mut calls } = script;
    let mut layer = Hold::over(source);
    let mut text = hold_states(heap, &mut layer, holds.as_slice())?;
    replay(&layer, calls.as_mut_slice());
    let answers = answers_text(heap, &layer, calls.as_slice())?;
    text.push_str(answers.as_str())?;
    Ok(Reply::printed(text))
}

// Calls are made on a trial of the model, and their answers printed.
impl Report for Calls<'_> {
    ghost answers = { λ c. CallsAnswer c.0.path.now (option_map (λ x. x.now) c.0.bytes) };

    fn on<S: Source>(&self, heap: Global, source: &S) -> Result<Reply, AllocError> {
        let Calls(file) = self;
        let text = match file.read(heap)? {
            Ok(text) => text,
            Err(reply) => return Ok(reply),
        };
        match read_calls(heap, source, text)? {
            Ok(script) => trialed(heap, source, script),
            Err(mistake) => Ok(Reply::Wrong(wrong_line_text(heap, file.path, mistake)?)),
        }
    }
}
