ghost use Rattle.std.specs.Prelude.{◌≤◌};

use crate::failure::Failure;
use rules::part::Part;
use rules::units::WHOLE;
use std::alloc::Global;
use std::fmt;
use std::fmt::Write;

// To how many decimal places a chance is written: all nine that a part has, or the nearest of six, as printed tables have them.
#[derive(Clone, Copy)]
pub(crate) enum Places {
    Nine,
    Six,
}

impl Places {
    // How many units of the last of the places make the whole.
    fn whole(self) -> u32
        ensures { 1 ≤ result }
    {
        match self {
            Places::Nine => WHOLE,
            Places::Six => 1_000_000,
        }
    }
}

// A part, to be written as a decimal fraction of so many places.
#[derive(Clone, Copy)]
pub(crate) struct Chance {
    pub(crate) part: Part,
    pub(crate) places: Places,
}

impl Chance {
    // The part in units of the last of the places, to the nearest.
    fn rounded(&self) -> u64 {
        let units = u64::from(self.part.units()) * u64::from(self.places.whole());
        (units + u64::from(WHOLE / 2)) / u64::from(WHOLE)
    }
}

impl fmt::Display for Chance {
    fn fmt<W: fmt::Write>(&self, f: &mut fmt::Formatter<W>) -> fmt::Result {
        let rounded = self.rounded();
        let whole = u64::from(self.places.whole());
        let (front, rest) = (rounded / whole, rounded % whole);
        // The width of a number stands in the text of its format, so each has one of its own.
        match self.places {
            Places::Nine => write!(f, "{front}.{rest:09}"),
            Places::Six => write!(f, "{front}.{rest:06}"),
        }
    }
}

// Two ends, to be written: one decimal fraction where they are written alike, else both.
#[derive(Clone, Copy)]
pub(crate) struct Between {
    pub(crate) lower: Part,
    pub(crate) upper: Part,
    pub(crate) places: Places,
}

impl fmt::Display for Between {
    fn fmt<W: fmt::Write>(&self, f: &mut fmt::Formatter<W>) -> fmt::Result {
        let Between {
            lower,
            upper,
            places,
        } = *self;
        let lower = Chance {
            part: lower,
            places,
        };
        let upper = Chance {
            part: upper,
            places,
        };
        if lower.rounded() == upper.rounded() {
            write!(f, "{lower}")
        } else {
            write!(f, "{lower}..{upper}")
        }
    }
}

// The ends that a function gives at each state, as a trial and a judge tell them, written one behind the other.
pub(crate) fn each_state<F: Fn(usize) -> Result<(Part, Part), Failure>>(
    heap: Global,
    states: usize,
    places: Places,
    ends: F,
) -> Result<String, Failure>
    requires { F.IsAlwaysCallable ends }
{
    let mut out = String::new(heap);
    for state in 0..states {
        let (lower, upper) = ends(state)?;
        let chance = Between {
            lower,
            upper,
            places,
        };
        write!(out, " {chance}")?;
    }
    Ok(out)
}
