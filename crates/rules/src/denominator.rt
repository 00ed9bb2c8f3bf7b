ghost use Rattle.std.specs.Prelude.{◌≡◌, ◌/◌, ◌-◌, ◌^◌, ◌≤◌, MatchOption};
ghost use Rattle.rules.specs.Parts.{part_of};

use crate::part::Part;
use crate::units::WHOLE;
use model::limits::DENOMINATOR;
use model::source::Source;

// The denominator of the rows of a source, with its reciprocal, a part of 2^64: to divide by it takes two products, a test and
// no division.
#[derive(Clone, Copy)]
pub struct Denominator {
    pub value: u32,
    reciprocal: u64,
    ghost some_unit: { 1 ≤ value },
    ghost few_units: { value ≤ 1000000 },
    ghost exact: { reciprocal ≡ (2 ^ 64 - 1) / value },
}

impl Denominator {
    // A number as a denominator, if it is from 1 to the greatest.
    pub fn new(value: u32) -> Option<Denominator>
        ensures { MatchOption result ((1 ≤ value) → (value ≤ 1000000) → ⊥) (λ made. made.value ≡ value) }
    {
        if !(1..=DENOMINATOR).contains(&value) {
            return None;
        }
        Some(Denominator {
            value,
            reciprocal: u64::MAX / u64::from(value),
        })
    }

    // The denominator of a source.
    pub fn of<S: Source>(source: &S) -> Denominator
        ensures { result.value ≡ (S.Source.model source.now).denominator }
    {
        // A source's denominator is within the limits.
        Denominator::new(source.denominator()).unwrap()
    }

    // A number divided by the denominator, rounded down. The upper half of its product with the reciprocal is that, or one less.
    pub(crate) fn quotient(&self, number: u64) -> u64
        ensures { result ≡ number / self.now.value }
    {
        let value = u64::from(self.value);
        let near = ((u128::from(number) * u128::from(self.reciprocal)) >> 64) as u64;
        if number - near * value < value {
            near
        } else {
            near + 1
        }
    }

    // The part that a number is of the denominator, rounded down; the whole where it would be more.
    pub fn part(&self, number: u64) -> Part
        ensures { result ≡ part_of (number / self.now.value) }
    {
        Part {
            units: self.quotient(number).min(u64::from(WHOLE)) as u32,
        }
    }
}
