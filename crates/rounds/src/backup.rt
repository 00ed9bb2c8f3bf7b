ghost use Rattle.std.specs.Prelude.{◌≡◌, ℕ, List, length};
ghost use Rattle.model.specs.Mdp.{LawfulRow};
ghost use Rattle.theory.specs.Rules.{valued};
ghost use Rattle.rules.specs.Values.{told};
ghost use Rattle.rounds.specs.Backups.{better_by};

use model::branch::Branch;
use rules::denominator::Denominator;
use rules::rule::Rule;

// What a round does at a state, a Bellman backup: it mixes the values of each row, and keeps the better of two mixes. A value
// rule does so by its preference; both ends at once do so by one preference, asked of each end by itself.
pub(crate) trait Backup {
    // the values of the states
    type Value: Copy;

    // the better of two values
    ghost chosen: { Self → Self.Value → Self.Value → Self.Value };

    // the mix of a row, by its denominator and its weights and values
    ghost mixed: { Self → ℕ → List (ℕ × Self.Value) → Self.Value };

    // The better of two values.
    fn better(&self, a: Self::Value, b: Self::Value) -> Self::Value
        ensures { result ≡ chosen self.now a b };

    // The mix of a lawful row, given a value for each state, with the arguments that `Rule::mix` has.
    fn mix(&self, denominator: &Denominator, row: &[Branch], values: &[Self::Value]) -> Self::Value
        requires lawful { LawfulRow (length values.now) denominator.now.value row.now }
        ensures { (d : Self.Value) → result ≡ mixed self.now denominator.now.value (valued (told values.now d) row.now) };
}

// The backup of a value rule: of two values the better one is the preferred one.
#[derive(Drop)]
pub(crate) struct ByRule<'r, R: Rule> {
    pub(crate) rule: &'r R,
}

impl<'r, R: Rule> Backup for ByRule<'r, R> {
    type Value = R::Value;

    ghost chosen = { λ x. better_by (R.Rule.preferred x.rule.now) };

    ghost mixed = { λ x. R.Rule.mixed x.rule.now };

    fn better(&self, a: R::Value, b: R::Value) -> R::Value {
        if self.rule.prefers(a, b) { a } else { b }
    }

    fn mix(&self, denominator: &Denominator, row: &[Branch], values: &[R::Value]) -> R::Value {
        self.rule.mix(denominator, row, values)
    }
}
