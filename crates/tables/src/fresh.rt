ghost use Rattle.std.specs.Prelude.{◌≡◌, IfOk};
ghost use Rattle.flat.specs.Flats.{content};
ghost use Rattle.flat.specs.Fresh.{fresh_content};

use crate::tables::Tables;
use flat::flat::Flat;
use std::alloc::{AllocError, Global};

// The text of fresh tables.
const FRESH: &[u8] = b"mdp\t1\t1\ns\t-\nc\nb\t0\t1\nend\n";

impl Tables {
    // Tables of one state, with no labels and one choice back to it. All their room is reserved here, so that no
    // later call wants memory.
    pub fn new(heap: Global) -> Result<Tables, AllocError>
        ensures { IfOk result (λ t. content t.kept ≡ fresh_content) }
    {
        let kept = Flat::new(heap)?;
        let draft = Flat::new(heap)?;
        let size = FRESH.len();
        Ok(Tables { kept, draft, size })
    }
}
