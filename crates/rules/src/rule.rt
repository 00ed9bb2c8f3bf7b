ghost use Rattle.std.specs.Prelude.{◌≡◌, ℕ, Bool, List, length};
ghost use Rattle.model.specs.Mdp.{LawfulRow};
ghost use Rattle.theory.specs.Rules.{RuleLaws, valued};
ghost use Rattle.rules.specs.Values.{told};

use crate::denominator::Denominator;
use model::branch::Branch;

// A value rule: what the values are, which of two is preferred, and how a row is mixed to one value. It has an answer to every
// question, and always the same one.
pub trait Rule {
    // the values of the rule
    type Value: Copy;

    // is the first value at least as preferred as the second?
    ghost preferred: { Self → Self.Value → Self.Value → Bool };

    // the mix of a row, by its denominator and its weights and values
    ghost mixed: { Self → ℕ → List (ℕ × Self.Value) → Self.Value };

    // Is `a` at least as preferred as `b`?
    fn prefers(&self, a: Self::Value, b: Self::Value) -> bool
        ensures { result ≡ preferred self.now a b };

    // The mix of a lawful row, given a value for each state. Row and values are plain slices, so that a rule of one's own
    // needs no type of ours for them; a denominator that has its reciprocal is what makes a rule that divides fast.
    fn mix(&self, denominator: &Denominator, row: &[Branch], values: &[Self::Value]) -> Self::Value
        requires lawful { LawfulRow (length values.now) denominator.now.value row.now }
        ensures { (d : Self.Value) → result ≡ mixed self.now denominator.now.value (valued (told values.now d) row.now) };

    // the preference is a total order, and a value at least as preferred in a lawful row never makes the mix less preferred
    ghost lawful: { (x : Self) → RuleLaws (preferred x) (mixed x) };
}
