ghost use Rattle.ladder.specs.Makes.{Made};

use crate::fault::LadderFault;
use crate::ladder::Ladder;
use model::limits::{DENOMINATOR, STATES};

impl Ladder {
    // The ladder with so many rungs, this denominator and this weight of a climb, or the first fault of the three.
    pub fn new(rungs: usize, denominator: u32, weight: u32) -> Result<Ladder, LadderFault>
        ensures { Made rungs denominator weight result }
    {
        if !(1..STATES).contains(&rungs) {
            return Err(LadderFault::Rungs);
        }
        if !(1..=DENOMINATOR).contains(&denominator) {
            return Err(LadderFault::Denominator);
        }
        if !(1..=denominator).contains(&weight) {
            return Err(LadderFault::Weight);
        }
        Ok(Ladder {
            rungs,
            denominator,
            weight,
        })
    }
}
