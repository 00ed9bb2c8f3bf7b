// Which of two values a rule prefers: the greater one or the lesser one.
#[derive(Clone, Copy, PartialEq, Eq, Debug)]
pub enum Preference {
    Greater,
    Lesser,
}
