use rules::part::Part;

// A lower and an upper end, between which a probability lies.
#[derive(Clone, Copy, PartialEq, Eq, Debug)]
pub struct Interval {
    pub lower: Part,
    pub upper: Part,
}
