ghost use Rattle.std.specs.Prelude.{◌≡◌};
ghost use Rattle.rules.specs.Parts.{part_made};

use crate::fault::PartFault;
use crate::part::Part;

// So many units make the whole.
pub const WHOLE: u32 = 1_000_000_000;

impl TryFrom<u32> for Part {
    type Error = PartFault;

    ghost try_from_gives = { λ units r. r ≡ part_made units };

    // The part of so many units, or a refusal where that is more than the whole.
    fn try_from(units: u32) -> Result<Part, PartFault> {
        if units > WHOLE {
            return Err(PartFault::Units);
        }
        Ok(Part { units })
    }
}

impl Part {
    // How many units it has.
    pub fn units(self) -> u32
        ensures { result ≡ self.units }
    {
        self.units
    }
}
