// Which way a rule rounds a mix that is no whole number of units.
#[derive(Clone, Copy, PartialEq, Eq, Debug)]
pub enum Rounding {
    Down,
    Up,
}
