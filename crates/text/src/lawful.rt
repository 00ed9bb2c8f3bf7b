ghost use Rattle.std.specs.Prelude.{◌≡◌, ℕ, List, [], Bool, false, cond, Ok, Err};
ghost use Rattle.text.specs.Fields.{longest, unlawful_place};

use crate::fault::FieldPlace;

// Asks whether field `index` of a line, whose longest lawful beginning has this length, is lawful; where not, tells the
// place of the fault.
pub(crate) fn check_lawful(field: &[u8], index: usize, length: usize) -> Result<(), FieldPlace>
    ghost lawful: { List ℕ → Bool }
    requires longest { length ≡ longest lawful field.now }
    requires empty { lawful [] ≡ false }
    ensures { result ≡ cond (lawful field.now) (Ok tt) (Err (unlawful_place lawful field.now index)) }
{
    if length == 0 || length < field.len() {
        return Err(FieldPlace {
            field: index,
            length,
        });
    }
    Ok(())
}
