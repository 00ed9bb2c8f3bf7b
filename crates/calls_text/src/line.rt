ghost use Rattle.std.specs.Prelude.{◌≤◌};

use std::alloc::Global;

// A line of a text of calls over so many states, and the heap that what it asks for is made on.
#[derive(Clone, Copy)]
pub(crate) struct Line<'a> {
    pub(crate) heap: Global,
    pub(crate) states: usize,
    pub(crate) bytes: &'a [u8],
    ghost few: { states ≤ 512 },
}
