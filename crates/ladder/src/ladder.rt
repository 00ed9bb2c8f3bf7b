ghost use Rattle.std.specs.Prelude.{◌≤◌};

// A ladder of states from 0 to `rungs`. A climb goes on to the next state with `weight` out of `denominator`.
#[derive(Clone, Copy, PartialEq, Eq, Debug)]
pub struct Ladder {
    pub(crate) rungs: usize,
    pub(crate) denominator: u32,
    pub(crate) weight: u32,
    ghost climbable: { (1 ≤ rungs) × (rungs ≤ 511) },
    ghost divisible: { (1 ≤ denominator) × (denominator ≤ 1000000) },
    ghost weighted: { (1 ≤ weight) × (weight ≤ denominator) },
}
