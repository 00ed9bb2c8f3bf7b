ghost use Rattle.std.specs.Prelude.{◌≡◌};
ghost use Rattle.formula.specs.Tokens.{meant};
ghost use Rattle.grammar.specs.Spelling.{sign};
ghost use Rattle.calls_text.specs.Words.{aim_of, comparison_of};

use records::comparison::Comparison;
use trial::aim::Aim;

// All comparisons.
const COMPARISONS: [Comparison; 4] = [
    Comparison::Below,
    Comparison::AtMost,
    Comparison::Above,
    Comparison::AtLeast,
];

// How a comparison is written. Comparisons and aims are of other crates, as `Display` and `TryFrom` are, so no such impl of them
// can stand here: functions write and read them.
pub(crate) fn sign(comparison: Comparison) -> &'static str
    ensures { result.now ≡ sign (meant comparison) }
{
    match comparison {
        Comparison::Below => "<",
        Comparison::AtMost => "<=",
        Comparison::Above => ">",
        Comparison::AtLeast => ">=",
    }
}

// The comparison that a word writes, if it does. How each is written stands in this crate once, in `sign`.
pub(crate) fn comparison_of(word: &[u8]) -> Option<Comparison>
    ensures { result ≡ comparison_of word.now }
{
    COMPARISONS
        .iter()
        .find(|comparison| word == sign(**comparison).as_bytes())
        .copied()
}

// What a query asks for, by its word, if it is one.
#[tactic(auto, using(crate::proofs::Spellings::spelled))]
pub(crate) fn aim_of(word: &[u8]) -> Option<Aim>
    ensures { result ≡ aim_of word.now }
{
    match word {
        b"best" => Some(Aim::Best),
        b"worst" => Some(Aim::Worst),
        _ => None,
    }
}
