ghost use Rattle.std.specs.Prelude.{◌≡◌};
ghost use Rattle.records.specs.Numbers.{comparison_number};

// How a value is compared with a bound.
#[derive(Clone, Copy, PartialEq, Eq, Debug)]
pub enum Comparison {
    Below = 1,
    AtMost = 2,
    Above = 3,
    AtLeast = 4,
}

impl Comparison {
    // The number of the comparison.
    pub fn number(self) -> u8
        ensures { result ≡ comparison_number self }
    {
        self as u8
    }
}
