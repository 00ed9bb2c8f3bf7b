ghost use Rattle.std.specs.Prelude.{◌≡◌, count_by};

// How many of some items are this one: of the verdict bytes of a row, or of the outcomes of a list. A judge counts its verdicts
// by the same chain: a function for it too would stand in a crate below and be this one line.
pub(crate) fn how_many<T: Copy + PartialEq>(item: T, items: &[T]) -> usize
    ensures { result ≡ count_by (λ other. T.eq other item) items.now }
{
    items.iter().filter(|other| **other == item).count()
}
