ghost use Rattle.std.specs.Prelude.{IfOk};
ghost use Rattle.std.specs.Option.{option_map};
ghost use Rattle.std.specs.Result.{result_map_both};
ghost use Rattle.console.specs.Replies.{answer_of, model_in, ModelFound, ModelAnswer};

use crate::command::ModelName;
use crate::found::{Found, ladder_found, text_found};
use crate::given::GivenFile;
use crate::reply::Reply;
use crate::report::Report;
use std::alloc::{AllocError, Global};

// A model that is named, and its file, where it has one.
#[derive(Clone, Copy)]
pub(crate) struct Named<'a> {
    pub name: ModelName,
    pub file: GivenFile<'a>,
}

impl Named<'_> {
    // The model, or the reply that tells why there is none.
    pub(crate) fn find(&self, heap: Global) -> Result<Result<Found, Reply>, AllocError>
        ensures { IfOk result (λ r. ModelFound self.now.name self.now.file.path.now (option_map (λ x. x.now) self.now.file.bytes) (result_map_both model_in answer_of r)) }
    {
        match self.name {
            ModelName::Ladder(numbers) => ladder_found(heap, numbers),
            ModelName::File => match self.file.read(heap)? {
                Ok(text) => text_found(heap, text),
                Err(reply) => Ok(Err(reply)),
            },
        }
    }

    // The reply of a report on the model.
    pub(crate) fn reply<R: Report>(&self, heap: Global, report: &R) -> Result<Reply, AllocError>
        ensures { IfOk result (λ a. ModelAnswer (R.answers report.now) self.now.name self.now.file.path.now (option_map (λ x. x.now) self.now.file.bytes) (answer_of a)) }
    {
        match self.find(heap)? {
            Ok(Found::Tables(tables)) => report.on(heap, &tables),
            Ok(Found::Ladder(ladder)) => report.on(heap, &ladder),
            Err(reply) => Ok(reply),
        }
    }
}
