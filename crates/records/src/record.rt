ghost use Rattle.std.specs.Prelude.{◌≡◌};
ghost use Rattle.records.specs.Numbers.{kind_number, optional_comparison_number};

use crate::comparison::Comparison;

// What a record stands for.
#[derive(Clone, Copy, PartialEq, Eq, Debug)]
pub enum Kind {
    Truth = 0,
    Label = 1,
    Negation = 2,
    Conjunction = 3,
    Next = 4,
    UntilWithin = 5,
    Until = 6,
}

// One state formula of a formula that was read: its parts by the numbers of their records, its comparison if it is a
// probability, its letter's number or its bound, its steps, and how many states it holds at and is undecided at. The
// layout of a record is fixed: a kind, two parts, a comparison, a number, steps and two counts; so the kind stands beside
// them, and is no enum with the parts in its variants. An unused comparison is none, and any other unused field is 0. A caller
// lends a slice of these, so a part is told by its record's number and not by a box.
#[derive(Clone, Copy, PartialEq, Eq, Debug)]
pub struct Record {
    pub kind: Kind,
    pub first: usize,
    pub second: usize,
    pub comparison: Option<Comparison>,
    pub number: u64,
    pub steps: u64,
    pub yes: usize,
    pub undecided: usize,
}

// A record with nothing in it, for room that is lent. `Record` has no `Default`: none of them stands for no formula.
pub const BLANK: Record = Record {
    kind: Kind::Truth,
    first: 0,
    second: 0,
    comparison: None,
    number: 0,
    steps: 0,
    yes: 0,
    undecided: 0,
};

impl Kind {
    // The number of the kind.
    pub fn number(self) -> u8
        ensures { result ≡ kind_number self }
    {
        self as u8
    }
}

impl Record {
    // The number of the record's comparison, 0 where it has none.
    pub fn comparison_number(&self) -> u8
        ensures { result ≡ optional_comparison_number self.now.comparison }
    {
        self.comparison.map_or(0, Comparison::number)
    }
}
