ghost use Rattle.std.specs.Prelude.{◌≡◌, ◌+◌, true, length};
ghost use Rattle.text.specs.Texts.{text_of};
ghost use Rattle.flat.specs.Flats.{content, StartsOk, OffsetsOk};
ghost use Rattle.tables.specs.Keeps.{keeps};

use flat::flat::Flat;

// The tables of a loaded model. `kept` holds the model, which is always within the limits, and `size` is the length of
// its text; `draft` is where the next one is read to, so that a refused text leaves the model as it was. They have no
// model of their own for contracts: these name the arrays kept, so that a refusal is seen to leave each of them.
#[derive(Drop)]
pub struct Tables {
    pub(crate) kept: Flat,
    pub(crate) draft: Flat,
    pub(crate) size: usize,
    ghost within: { keeps (content kept) ≡ true },
    ghost long: { length kept.starts.items ≡ length kept.labels.items + 1 },
    ghost rising: { StartsOk (length kept.labels.items) (length kept.offsets.items) kept.starts.items },
    ghost spanned: { OffsetsOk (length kept.branches.items) kept.offsets.items },
    ghost sized: { size ≡ length (text_of (content kept)) },
}
