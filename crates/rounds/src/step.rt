ghost use Rattle.std.specs.Prelude.{◌≡◌, length};
ghost use Rattle.rules.specs.Values.{told};
ghost use Rattle.rounds.specs.Backups.{backed_up};
ghost use Rattle.rounds.specs.Runs.{listed};

use crate::backup::Backup;
use crate::round::{Buffer, Round};
use model::source::Source;
use rules::denominator::Denominator;

// One round: `spare` gets the values as they are, and each state its best mix of them. The denominator is the source's; it is given,
// since to make one takes a division, and a caller makes many rounds.
// Its arguments are no struct that holds both lists: where the two are lent to it at one lifetime, the caller's proof learns
// only how long they are afterwards, and where each has its own, the borrow checker doesn't cover `run` and `settle`.
pub(crate) fn one_round<S: Source, B: Backup>(
    source: &S,
    denominator: Denominator,
    backup: &B,
    values: &mut [B::Value],
    spare: &mut [B::Value],
    buffer: &mut Buffer,
)
    requires units { denominator.value ≡ (S.Source.model source.now).denominator }
    requires long { length values.old ≡ (S.Source.model source.now).states }
    requires spare_long { length spare.old ≡ (S.Source.model source.now).states }
    ensures values { (d : B.Value) → values.new ≡ listed (S.Source.model source.now).states (backed_up (B.Backup.chosen backup.now) (B.Backup.mixed backup.now) (S.Source.model source.now) (told values.old d)) }
    ensures spare { spare.new ≡ values.old }
{
    spare.copy_from_slice(values);
    let round = Round {
        source,
        denominator,
        backup,
        values: spare,
    };
    for (state, value) in values.iter_mut().enumerate() {
        *value = round.best_mix(state, buffer);
    }
}
