ghost use Rattle.std.specs.Prelude.{◌≡◌, ◌≤◌, IfOk};
ghost use Rattle.calls_text.specs.Texts.{contents_read, text_read};
ghost use Rattle.calls_text.specs.VerdictEnds.{ReplaysReadOff};

use crate::line::Line;
use crate::mistake::Mistake;
use crate::script::Script;
use model::source::Source;
use std::alloc::{AllocError, Global};

// Reads the lines of a text of calls over so many states.
fn read_lines(
    heap: Global,
    states: usize,
    text: &[u8],
) -> Result<Result<Script, Mistake>, AllocError>
    requires { states ≤ 512 }
    ensures read { IfOk result (λ r. contents_read r ≡ text_read states text.now) }
    ensures verdicts { IfOk result (λ r. IfOk r ReplaysReadOff) }
{
    let mut script = Script::new(heap);
    for (index, bytes) in text.split(|byte| *byte == b'\n').enumerate() {
        let line = Line {
            heap,
            states,
            bytes,
        };
        if let Err(wrong) = script.add_line(&line)? {
            return Ok(Err(Mistake {
                line: index + 1,
                wrong,
            }));
        }
    }
    Ok(Ok(script))
}

// Reads a text of calls on a trial of the source, or tells its first mistake. In whatever replay of what was read, each verdict
// is read off the ends just before it.
pub fn read_calls<S: Source>(
    heap: Global,
    source: &S,
    text: &[u8],
) -> Result<Result<Script, Mistake>, AllocError>
    ensures read { IfOk result (λ r. contents_read r ≡ text_read (S.Source.model source.now).states text.now) }
    ensures verdicts { IfOk result (λ r. IfOk r ReplaysReadOff) }
{
    read_lines(heap, source.states(), text)
}
