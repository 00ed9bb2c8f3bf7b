ghost use Rattle.std.specs.Prelude.{◌≡◌, ◌≤◌, length};
ghost use Rattle.flat.specs.Flats.{row_start};

use crate::flat::Flat;
use model::branch::Branch;
use model::labels::Labels;
use text::word::Word;

// What a header says.
#[derive(Clone, Copy)]
pub(crate) struct Header {
    pub(crate) states: usize,
    pub(crate) denominator: u32,
    ghost few_states: { states ≤ 512 },
}

// What a line says.
#[derive(Clone, Copy)]
pub(crate) enum Record {
    Header(Header),
    State(Labels),
    Choice,
    Branch(Branch),
    End,
}

// The loader of a text: the arrays that it fills, the word of the last line, if any, and what the header says, 0 and 0
// before it is read: an `Option` would add a case that no line meets, since `mdp` comes first. The arrays are within the
// limits, so that what is read next has room, and the row of the last choice begins within the branches.
#[derive(Drop)]
pub(crate) struct Loader<'a> {
    pub(crate) flat: &'a mut Flat,
    pub(crate) last: Option<Word>,
    pub(crate) header: Header,
    ghost few_labels: { length flat.now.labels.items ≤ 512 },
    ghost one_start_each: { length flat.now.starts.items ≡ length flat.now.labels.items },
    ghost few_offsets: { length flat.now.offsets.items ≤ 2048 },
    ghost few_branches: { length flat.now.branches.items ≤ 4096 },
    ghost row_within: { row_start flat.now.offsets.items ≤ length flat.now.branches.items },
}
