ghost use Rattle.rounds_text.specs.Numberings.{Numbering, value_made, parts_numbering, marks_numbering};
ghost use Rattle.std.specs.Prelude.{◌≡◌};

use rules::fault::PartFault;
use rules::part::Part;

// A value of a rule that is given and printed as a number. The functions stand in a trait of their own: no crate may write
// `TryFrom<u64>` for a `bool`. That has `Default`, and `u64` has `From` it, but a part has neither, and with both a law would
// still have to tie the three to one numbering.
pub trait Numbered: Copy {
    // which numbers stand for values, and the number of each value
    ghost numbering: { Numbering Self };

    // The value that a number stands for, or why it stands for none.
    fn from_number(number: u64) -> Result<Self, PartFault>
        ensures { result ≡ value_made numbering number };

    // The value that 0 stands for.
    fn zero() -> Self
        ensures { result ≡ numbering.value 0 };

    // The number that stands for a value.
    fn number(self) -> u64
        ensures { result ≡ numbering.number self };
}

// A part is given by its units.
impl Numbered for Part {
    ghost numbering = { parts_numbering };

    fn from_number(number: u64) -> Result<Part, PartFault> {
        let units = u32::try_from(number).map_err(|_| PartFault::Units)?;
        Part::try_from(units)
    }

    fn zero() -> Part {
        Part::try_from(0).unwrap()
    }

    fn number(self) -> u64 {
        u64::from(self.units())
    }
}

// A mark is given by 1 for yes, and else is a no.
impl Numbered for bool {
    ghost numbering = { marks_numbering };

    fn from_number(number: u64) -> Result<bool, PartFault> {
        Ok(number == 1)
    }

    fn zero() -> bool {
        false
    }

    fn number(self) -> u64 {
        u64::from(self)
    }
}
