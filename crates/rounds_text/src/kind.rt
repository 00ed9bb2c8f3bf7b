use rules::rounding::Rounding;

// Which rule rounds go by: that of parts, rounded so, or that of marks. It is no `Option` of a rounding, since marks are a rule
// of their own and not the want of a rounding.
#[derive(Clone, Copy, PartialEq, Eq, Debug)]
pub enum Kind {
    Parts(Rounding),
    Marks,
}
