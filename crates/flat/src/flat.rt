ghost use Rattle.std.specs.Prelude.{◌≤◌, vec_capacity};

use model::branch::Branch;
use model::labels::Labels;

// A model in flat arrays: the labels of each state, the number of its first choice, for each choice the number of
// its first branch, and the branches. `starts` and `offsets` end with the number of choices and of branches. There
// is room for 512 states, 2,048 choices and 4,096 branches, so nothing put in within these limits wants memory.
// Vectors of vectors would want memory for each state and choice that a text has: these arrays have it beforehand.
// `labels` and `starts` are not one vector of pairs, since `starts` has one entry more than there are states: the next
// entry, where the choices of a state end, is then there for the last state too; so it is with `offsets` and choices.
#[derive(Drop)]
pub struct Flat {
    pub denominator: u32,
    pub labels: Vec<Labels>,
    pub starts: Vec<usize>,
    pub offsets: Vec<usize>,
    pub branches: Vec<Branch>,
    ghost labels_room: { 512 ≤ vec_capacity labels },
    ghost starts_room: { 513 ≤ vec_capacity starts },
    ghost offsets_room: { 2049 ≤ vec_capacity offsets },
    ghost branches_room: { 4096 ≤ vec_capacity branches },
}
