ghost use Rattle.std.specs.Prelude.{◌≡◌, IfOk};
ghost use Rattle.rounds_text.specs.Requests.{rounds_text, request_text, Answered};
ghost use Rattle.rounds_text.specs.Refusals.{numbers_fault, request_fault};

use crate::fault::RequestFault;
use crate::kind::Kind;
use crate::listed::lists_text;
use crate::numbered::Numbered;
use crate::values::{values, zeros};
use model::source::Source;
use rounds::run::rounds;
use rules::marks::Marks;
use rules::parts::Parts;
use rules::preference::Preference;
use rules::rule::Rule;
use std::alloc::{AllocError, Global};

// Rounds that are asked for: by which rule, with which preference, and how many.
#[derive(Clone, Copy, PartialEq, Eq, Debug)]
pub struct Request {
    pub kind: Kind,
    pub preference: Preference,
    pub count: u64,
}

// What is printed of `count` rounds of a rule from the values that numbers stand for, or why they are refused.
fn rounds_text<S: Source, V: Numbered, R: Rule<Value = V>>(
    heap: Global,
    source: &S,
    rule: &R,
    count: u64,
    numbers: &[u64],
) -> Result<Result<String, RequestFault>, AllocError>
    ensures { IfOk result (Answered (numbers_fault V.numbering (S.Source.model source.now).states count numbers.now) (rounds_text V.numbering (R.Rule.preferred rule.now) (R.Rule.mixed rule.now) (S.Source.model source.now) count numbers.now)) }
{
    let mut first: Vec<V> = match values(heap, numbers)? {
        Ok(values) => values,
        Err(fault) => return Ok(Err(RequestFault::Part(fault))),
    };
    let mut second = zeros(heap, source.states())?;
    match rounds(
        source,
        rule,
        first.as_mut_slice(),
        second.as_mut_slice(),
        count,
    ) {
        Ok(()) => Ok(Ok(lists_text(heap, first.as_slice(), second.as_slice())?)),
        Err(fault) => Ok(Err(RequestFault::Rounds(fault))),
    }
}

impl Request {
    // What is printed of these rounds on a source from the given numbers, one for each state, or why they are refused.
    pub fn text<S: Source>(
        &self,
        heap: Global,
        source: &S,
        numbers: &[u64],
    ) -> Result<Result<String, RequestFault>, AllocError>
        ensures { IfOk result (Answered (request_fault self.now (S.Source.model source.now).states numbers.now) (request_text self.now (S.Source.model source.now) numbers.now)) }
    {
        let Request {
            kind,
            preference,
            count,
        } = *self;
        match kind {
            Kind::Parts(rounding) => {
                let rule = Parts {
                    rounding,
                    preference,
                };
                rounds_text(heap, source, &rule, count, numbers)
            }
            Kind::Marks => rounds_text(heap, source, &Marks { preference }, count, numbers),
        }
    }
}
