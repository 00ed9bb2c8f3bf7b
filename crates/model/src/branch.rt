// One way that a choice may go: the target state, and its weight out of the denominator.
#[derive(Clone, Copy, PartialEq, Eq, Debug, Default)]
pub struct Branch {
    pub target: usize,
    pub weight: u32,
}
