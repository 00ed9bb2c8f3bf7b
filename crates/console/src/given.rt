ghost use Rattle.std.specs.Prelude.{◌≡◌, IfOk, ok_or};
ghost use Rattle.std.specs.Option.{option_map};
ghost use Rattle.std.specs.Result.{result_map_both};
ghost use Rattle.console.specs.Helps.{no_file_text};
ghost use Rattle.console.specs.Replies.{answer_of, wrong};

use crate::help::no_file_text;
use crate::reply::Reply;
use std::alloc::{AllocError, Global};

// A file that the command line names, by its path, and its bytes, if it could be read.
#[derive(Clone, Copy)]
pub(crate) struct GivenFile<'a> {
    pub path: &'a str,
    pub bytes: Option<&'a [u8]>,
}

impl<'a> GivenFile<'a> {
    // Its bytes, or the reply that it cannot be read.
    pub(crate) fn read(&self, heap: Global) -> Result<Result<&'a [u8], Reply>, AllocError>
        ensures { IfOk result (λ r. result_map_both (λ x. x.now) answer_of r ≡ ok_or (option_map (λ x. x.now) self.now.bytes) (wrong (no_file_text self.now.path.now))) }
    {
        match self.bytes {
            Some(bytes) => Ok(Ok(bytes)),
            None => Ok(Err(Reply::Wrong(no_file_text(heap, self.path)?))),
        }
    }
}
