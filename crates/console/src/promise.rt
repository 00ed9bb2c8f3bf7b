ghost use Rattle.std.specs.Prelude.{◌++◌, map, IfOk, OnErr, string_bytes};
ghost use Rattle.std.specs.Option.{option_map};
ghost use Rattle.limits_text.specs.Lists.{Writes};
ghost use Rattle.console.specs.Replies.{answer_of, Answers, Begun};
ghost use Rattle.console.specs.Promise.{printed_by, Promised};

use crate::answer::reply_to;
use crate::reply::Reply;
use std::alloc::Global;
use std::io;
use std::io::Write;

// The reply to the words of the command line, after the program's name, given the bytes of files 0 and 1 at the paths that they
// want read, if these could be read. This is the one call that the program makes, and its clauses `promise` and `promise_begun` say
// what a verdict promises that `check` prints. The reports of a list of limits are written to `out` as they are made, and their
// progress is told to `progress`. Where there is no memory or a write fails, a beginning of this was written and told.
pub fn reply<W: Write, P: Write>(
    heap: Global,
    args: &[String],
    file: Option<&[u8]>,
    second: Option<&[u8]>,
    out: &mut W,
    progress: &mut P,
) -> io::Result<Reply>
    ensures promise { IfOk result (λ a. Writes
        (λ w. Promised (map string_bytes args.now) (option_map (λ x. x.now) file.entry)
        (w.reports ++ printed_by (answer_of a)))
        (W.Write.contents out.old) (W.Write.contents out.new)
        (P.Write.contents progress.old) (P.Write.contents progress.new)) }
    ensures promise_begun { OnErr result (Writes
        (λ w. Promised (map string_bytes args.now) (option_map (λ x. x.now) file.entry)
        w.reports)
        (W.Write.contents out.old) (W.Write.contents out.new)
        (P.Write.contents progress.old) (P.Write.contents progress.new)) }
    ensures whole { IfOk result (λ a. Writes
        (λ w. Answers (map string_bytes args.now)
        (option_map (λ x. x.now) file.entry) (option_map (λ x. x.now) second.entry)
        w (answer_of a))
        (W.Write.contents out.old) (W.Write.contents out.new)
        (P.Write.contents progress.old) (P.Write.contents progress.new)) }
    ensures begun { OnErr result (Writes
        (Begun (map string_bytes args.now)
        (option_map (λ x. x.now) file.entry) (option_map (λ x. x.now) second.entry))
        (W.Write.contents out.old) (W.Write.contents out.new)
        (P.Write.contents progress.old) (P.Write.contents progress.new)) }
{
    reply_to(heap, args, file, second, out, progress)
}
