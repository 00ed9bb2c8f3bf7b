ghost use Rattle.std.specs.Prelude.{IfOk};
ghost use Rattle.model.specs.Mdp.{Mdp};
ghost use Rattle.console.specs.Replies.{Answer, answer_of};

use crate::reply::Reply;
use model::source::Source;
use std::alloc::{AllocError, Global};

// What a command tells of a model, whatever source it comes from.
pub(crate) trait Report {
    // what it is to answer on a model
    ghost answers: { Self → Mdp → Answer → Type 0 };

    // The reply on a source. `heap` and `source` are two arguments here and in what is called with them: the heap goes to
    // whatever wants memory and tells nothing of a model, and a struct of the two would be made for this call alone.
    fn on<S: Source>(&self, heap: Global, source: &S) -> Result<Reply, AllocError>
        ensures { IfOk result (λ a. answers self.now (S.Source.model source.now) (answer_of a)) };
}
