ghost use Rattle.std.specs.Prelude.{◌≡◌};
ghost use Rattle.rules.specs.Order.{at_least_as_preferred};

use crate::preference::Preference;

impl Preference {
    // Is `a` at least as preferred as `b`, by the order of their type?
    pub fn prefers<T: PartialOrd + Drop>(self, a: T, b: T) -> bool
        ensures { result ≡ at_least_as_preferred T.partial_cmp self a b }
    {
        match self {
            Preference::Greater => a >= b,
            Preference::Lesser => a <= b,
        }
    }
}
