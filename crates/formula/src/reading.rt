ghost use Rattle.std.specs.Prelude.{◌≡◌, ◌+◌, ◌^◌, ◌<◌, nat_le};
ghost use Rattle.text.specs.Refusals.{ask};
ghost use Rattle.formula.specs.Tokens.{meant};
ghost use Rattle.formula.specs.Readings.{kind_unbounded, atom, joined, entire, preceded, next_path, until_path, probability, path_record};

use crate::extremal::{Extremal, WHOLE};
use crate::token::{Bound, Number};
use records::record::{Kind, Record};

// The most steps that an until may have.
const MOST_STEPS: u64 = 10_000;

// What is known of a formula that was read, or of the parts of one: the place after it, how many records there are then,
// its depth, the place of its first number above its limit, and that of its first `P` over an until without steps under
// none of its three bounds.
// That a count has room to grow is asked where it grows: only the reader knows that there are no more records than bytes.
#[derive(Clone, Copy)]
pub(crate) struct Reading {
    pub end: usize,
    pub count: usize,
    pub depth: usize,
    pub large: Option<usize>,
    pub unbounded: Option<usize>,
}

// What is known of a path formula that was read: the kind of a probability over it, the numbers of its parts' records,
// its steps, and what is known of its parts. What a next has not is 0, as in the record, which gets these fields as they
// are: with a variant for each kind, its kind, its record and its parts would each be told apart anew.
#[derive(Clone, Copy)]
pub(crate) struct Path {
    pub kind: Kind,
    pub first: usize,
    pub second: usize,
    pub steps: u64,
    pub parts: Reading,
}

// The place of the number, if it is above its limit.
fn excess(number: Number, limit: u64) -> Option<usize>
    ensures { result ≡ ask (nat_le number.value limit) number.place }
{
    (number.value > limit).then_some(number.place)
}

// The place, if a probability of this kind is an until without steps that may not stand under the bound.
fn unbounded_place(kind: Kind, bound: Bound, at: usize) -> Option<usize>
    ensures { result ≡ kind_unbounded kind (meant bound.comparison) bound.number.value at }
{
    let extremal = Extremal::of(bound.comparison, bound.number.value);
    (kind == Kind::Until && extremal.is_none()).then_some(at)
}

impl Reading {
    // A formula without parts.
    pub(crate) fn atom(end: usize, count: usize) -> Reading
        requires { count + 1 < 2 ^ 64 }
        ensures { result ≡ atom end count }
    {
        Reading {
            end,
            count: count + 1,
            depth: 1,
            large: None,
            unbounded: None,
        }
    }

    // This part and the next one together.
    pub(crate) fn joined(self, next: Reading) -> Reading
        ensures { result ≡ joined self next }
    {
        Reading {
            end: next.end,
            count: next.count,
            depth: self.depth.max(next.depth),
            large: self.large.or(next.large),
            unbounded: self.unbounded.or(next.unbounded),
        }
    }

    // The formula that has these parts and ends there.
    pub(crate) fn entire(self, end: usize) -> Reading
        requires { (self.count + 1 < 2 ^ 64) × (self.depth + 1 < 2 ^ 64) }
        ensures { result ≡ entire self end }
    {
        Reading {
            end,
            count: self.count + 1,
            depth: self.depth + 1,
            ..self
        }
    }

    // The same with what was found before it in the text.
    fn preceded(self, large: Option<usize>, unbounded: Option<usize>) -> Reading
        ensures { result ≡ preceded large unbounded self }
    {
        Reading {
            large: large.or(self.large),
            unbounded: unbounded.or(self.unbounded),
            ..self
        }
    }
}

impl Path {
    // A next over this part.
    pub(crate) fn next(part: Reading) -> Path
        requires { 0 < part.count }
        ensures { result ≡ next_path part }
    {
        Path {
            kind: Kind::Next,
            first: part.count - 1,
            second: 0,
            steps: 0,
            parts: part,
        }
    }

    // An until of these two parts with these steps.
    pub(crate) fn until(left: Reading, limit: Option<Number>, right: Reading) -> Path
        requires { (0 < left.count) × (0 < right.count) }
        ensures { result ≡ until_path left limit right }
    {
        let (kind, steps, large) = match limit {
            Some(limit) => (Kind::UntilWithin, limit.value, excess(limit, MOST_STEPS)),
            None => (Kind::Until, 0, None),
        };
        Path {
            kind,
            first: left.count - 1,
            second: right.count - 1,
            steps,
            parts: left.joined(right.preceded(large, None)),
        }
    }

    // The probability over this path, from `at` to `end`.
    pub(crate) fn probability(self, at: usize, bound: Bound, end: usize) -> Reading
        requires { (self.parts.count + 1 < 2 ^ 64) × (self.parts.depth + 1 < 2 ^ 64) }
        ensures { result ≡ probability at bound self end }
    {
        let large = excess(bound.number, WHOLE);
        let unbounded = unbounded_place(self.kind, bound, at);
        self.parts.preceded(large, unbounded).entire(end)
    }

    // The record of the probability over this path.
    pub(crate) fn line(self, bound: Bound) -> Record
        ensures { result ≡ path_record self bound }
    {
        Record {
            kind: self.kind,
            first: self.first,
            second: self.second,
            comparison: Some(bound.comparison),
            number: bound.number.value,
            steps: self.steps,
            yes: 0,
            undecided: 0,
        }
    }
}
