// Models that tests ask, here and in the tests of trials.
ghost use Rattle.std.specs.Prelude.{IfOk};
ghost use Rattle.tables.specs.Loads.{Accepted};

use std::alloc::Global;
use std::test::Fail;
use tables::tables::Tables;

// State 0 tries again with 1 part out of 4 or goes to 1, or it takes 1 or 2 alike; 1 and 2 stay.
pub const RETRY: &[u8] =
    b"mdp\t3\t4\ns\t-\nc\nb\t0\t1\nb\t1\t3\nc\nb\t1\t2\nb\t2\t2\ns\ta\nc\nb\t1\t4\ns\tb\nc\nb\t2\t4\nend\n";

// State 0 waits with 2 parts out of 3 and else goes to 1, which has the label a and stays.
pub const THIRDS: &[u8] = b"mdp\t2\t3\ns\t-\nc\nb\t0\t2\nb\t1\t1\ns\ta\nc\nb\t1\t3\nend\n";

// Tables that hold the model of a text. A text that is refused, or want of memory, is a test's failure.
pub fn table(heap: Global, text: &[u8]) -> Result<Tables, Fail>
    ensures { IfOk result (λ t. Accepted text.now t.kept) }
{
    let mut tables = Tables::new(heap)?;
    tables.load(text)?;
    Ok(tables)
}
