ghost use Rattle.std.specs.Prelude.{◌≤◌};
ghost use Rattle.theory.specs.Mixes.{whole};

// A part of a whole, in units: 1,000,000,000 of them make the whole.
// It has no model of its own: a number alone would not tell a clause that it is at most the whole, which rounds of parts
// need of each value.
#[derive(Clone, Copy, PartialEq, Eq, PartialOrd, Ord, Debug)]
pub struct Part {
    pub(crate) units: u32,
    ghost within: { units ≤ whole },
}
