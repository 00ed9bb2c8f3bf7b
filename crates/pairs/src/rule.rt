ghost use Rattle.pairs.specs.Pairs.{at_least, least};
ghost use Rattle.pairs.specs.Laws.{pairs_lawful};

use model::branch::Branch;
use rules::denominator::Denominator;
use rules::rule::Rule;

// The rule of pairs: the greater pair in lexicographic order is preferred, and a row is mixed to the least pair among its
// branches, however small its weight.
#[derive(Clone, Copy)]
pub struct Pairs;

impl Rule for Pairs {
    type Value = (u32, u32);

    ghost preferred = { λ x. at_least };

    ghost mixed = { λ x. least };

    ghost lawful = { λ x. pairs_lawful };

    fn prefers(&self, a: (u32, u32), b: (u32, u32)) -> bool {
        a >= b
    }

    fn mix(&self, _denominator: &Denominator, row: &[Branch], values: &[(u32, u32)]) -> (u32, u32) {
        row.iter().fold(
            (u32::MAX, u32::MAX),
            |least, branch| least.min(values[branch.target]),
        )
    }
}
