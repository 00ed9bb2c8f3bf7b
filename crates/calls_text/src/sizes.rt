ghost use Rattle.std.specs.Prelude.{◌≡◌, ◌≤◌};
ghost use Rattle.calls_text.specs.Requests.{usual_sizes, sizes_of};

use crate::words::number_at;

// How many records a judge is lent, and how many bytes of scratch and of output.
#[derive(Clone, Copy, PartialEq, Eq, Debug)]
pub(crate) struct Sizes {
    pub(crate) records: usize,
    pub(crate) scratch: usize,
    pub(crate) out: usize,
}

impl Sizes {
    // Room for any formula over so many states.
    pub(crate) fn usual(states: usize) -> Sizes
        requires { states ≤ 512 }
        ensures { result ≡ usual_sizes states }
    {
        Sizes {
            records: 64,
            scratch: 64 * states,
            out: states,
        }
    }

    // The sizes that the third word of a line and the two after it write, if they are within the limits, which keep the memory
    // that a line asks for small: no formula has use for more.
    pub(crate) fn of_line(line: &[u8]) -> Option<Sizes>
        ensures { result ≡ sizes_of line.now }
    {
        let records = number_at(line, 2)?;
        let scratch = number_at(line, 3)?;
        let out = number_at(line, 4)?;
        if records > 64 || scratch > 65_536 || out > 65_536 {
            return None;
        }
        Some(Sizes {
            records: records as usize,
            scratch: scratch as usize,
            out: out as usize,
        })
    }
}
