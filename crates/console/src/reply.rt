use printing::words::{Refusal, refusal_line};
use std::alloc::{AllocError, Global};

// What the program answers: text to print, a refusal to print, or a sentence on what is wrong.
#[derive(Drop)]
pub enum Reply {
    Printed(Vec<u8>),
    Refused(String),
    Wrong(String),
}

impl Reply {
    ghost use Rattle.std.specs.Prelude.{◌≡◌, ◌++◌, IfOk, string_bytes, codes};
    ghost use Rattle.printing.specs.Words.{refusal_line};
    ghost use Rattle.console.specs.Replies.{answer_of, printed, refused};

    // The reply that prints a text.
    pub(crate) fn printed(text: String) -> Reply
        ensures { answer_of result ≡ printed (string_bytes text) }
    {
        Reply::Printed(text.into_bytes())
    }

    // The reply that tells of a fault with no place in a text.
    pub(crate) fn refused<F: Refusal>(heap: Global, fault: &F) -> Result<Reply, AllocError>
        ensures { IfOk result (λ a. answer_of a ≡ refused (refusal_line (F.number fault.now) (F.words fault.now) ++ codes "\n")) }
    {
        let mut text = refusal_line(heap, fault)?;
        text.push_str("\n")?;
        Ok(Reply::Refused(text))
    }
}
