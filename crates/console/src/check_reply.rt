ghost use Rattle.std.specs.Prelude.{◌≡◌, Ok, IfOk, OnErr};
ghost use Rattle.std.specs.Option.{option_map};
ghost use Rattle.limits_text.specs.Lists.{Writes};
ghost use Rattle.limits_text.specs.Summaries.{summary_of};
ghost use Rattle.console.specs.Replies.{answer_of, summary_answer, LimitsAnswer, CheckAnswer, LimitsBegun, CheckBegun};

use crate::found::Found;
use crate::given::GivenFile;
use crate::named::Named;
use crate::reply::Reply;
use limits_text::list::report_list;
use limits_text::outcome::Outcome;
use limits_text::summary::Summary;
use model::source::Source;
use std::alloc::{AllocError, Global};
use std::io;
use std::io::Write;

// The file of a list of limits. A text of calls is a file of another type: it is a `Report`, and this, which writes, is none.
#[derive(Clone, Copy)]
pub(crate) struct Limits<'a>(pub GivenFile<'a>);

// Where a list of limits writes its reports, and where it tells its progress. `report_list` takes the two one by one, since it
// lends each anew for a line.
#[derive(Drop)]
pub(crate) struct Writers<'a, W, P> {
    pub out: &'a mut W,
    pub progress: &'a mut P,
}

// The reply after a list of limits, with these outcomes.
fn summary_reply(heap: Global, outcomes: &[Outcome]) -> Result<Reply, AllocError>
    ensures { IfOk result (λ a. answer_of a ≡ summary_answer (summary_of outcomes.now)) }
{
    let summary = Summary::of(outcomes);
    let text = format!(in heap; "{summary}")?;
    if summary.refused == 0 {
        Ok(Reply::printed(text))
    } else {
        Ok(Reply::Refused(text))
    }
}

impl Limits<'_> {
    // Judges the list over a source and writes its reports; replies the summary. The writers are taken by value: a clause sees by
    // `exit` what is left behind each of them.
    fn on<S: Source, W: Write, P: Write>(
        &self,
        heap: Global,
        source: &S,
        writers: Writers<'_, W, P>,
    ) -> io::Result<Reply>
        ensures whole { IfOk result (λ a. Writes
            (λ w. LimitsAnswer self.now.0.path.now (option_map (λ x. x.now) self.now.0.bytes)
            (Ok (S.model source.now)) w (answer_of a))
            (W.Write.contents writers.entry.out.now) (W.Write.contents writers.exit.0.now)
            (P.Write.contents writers.entry.progress.now)
            (P.Write.contents writers.exit.1.0.now)) }
        ensures begun { OnErr result (Writes
            (LimitsBegun (option_map (λ x. x.now) self.now.0.bytes) (S.model source.now))
            (W.Write.contents writers.entry.out.now) (W.Write.contents writers.exit.0.now)
            (P.Write.contents writers.entry.progress.now)
            (P.Write.contents writers.exit.1.0.now)) }
    {
        let Limits(file) = self;
        let list = match file.read(heap)? {
            Ok(list) => list,
            Err(reply) => return Ok(reply),
        };
        let Writers { out, progress } = writers;
        let outcomes = report_list(heap, source, list, out, progress)?;
        Ok(summary_reply(heap, outcomes.as_slice())?)
    }

    // Judges the list over a model, if that is found, and writes its reports; replies the summary, or what stands in the way.
    pub(crate) fn check<W: Write, P: Write>(
        &self,
        heap: Global,
        model: &Named<'_>,
        writers: Writers<'_, W, P>,
    ) -> io::Result<Reply>
        ensures whole { IfOk result (λ a. Writes
            (λ w. CheckAnswer model.now.name model.now.file.path.now
            (option_map (λ x. x.now) model.now.file.bytes)
            self.now.0.path.now (option_map (λ x. x.now) self.now.0.bytes) w (answer_of a))
            (W.Write.contents writers.entry.out.now) (W.Write.contents writers.exit.0.now)
            (P.Write.contents writers.entry.progress.now)
            (P.Write.contents writers.exit.1.0.now)) }
        ensures begun { OnErr result (Writes
            (CheckBegun model.now.name model.now.file.path.now
            (option_map (λ x. x.now) model.now.file.bytes)
            (option_map (λ x. x.now) self.now.0.bytes))
            (W.Write.contents writers.entry.out.now) (W.Write.contents writers.exit.0.now)
            (P.Write.contents writers.entry.progress.now)
            (P.Write.contents writers.exit.1.0.now)) }
    {
        match model.find(heap)? {
            Ok(Found::Tables(tables)) => self.on(heap, &tables, writers),
            Ok(Found::Ladder(ladder)) => self.on(heap, &ladder, writers),
            Err(reply) => Ok(reply),
        }
    }
}
