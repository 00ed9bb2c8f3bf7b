ghost use Rattle.std.specs.Prelude.{◌≡◌, ◌<◌, length, take};
ghost use Rattle.model.specs.Mdp.{row};
ghost use Rattle.theory.specs.Rounds.{mixed as mixed_row};
ghost use Rattle.rules.specs.Values.{told};
ghost use Rattle.rounds.specs.Backups.{backed_up};

use crate::backup::Backup;
use model::branch::Branch;
use model::limits::STATES;
use model::source::Source;
use rules::denominator::Denominator;

// A buffer for the branches of one row, for a source that does not keep its rows. No row has more branches than there can be
// states. The room is fixed, since a round may want no memory.
pub(crate) type Buffer = [Branch; STATES];

// The branches of a choice, as many as the buffer has room for: from where the source keeps them, or read into the buffer.
fn lend_row<'b, S: Source>(
    source: &'b S,
    state: usize,
    choice: usize,
    buffer: &'b mut [Branch],
) -> &'b [Branch]
    ensures { result.now ≡ take (length buffer.old) (row (S.Source.model source.now) state choice) }
{
    match source.kept_row(state, choice) {
        Some(row) => &row[..row.len().min(buffer.len())],
        None => {
            let count = source.read_row(state, choice, buffer);
            &buffer[..count.min(buffer.len())]
        }
    }
}

// What a round reads: the model, its denominator, the backup, and a value of each state.
#[derive(Drop)]
pub(crate) struct Round<'a, S: Source, B: Backup> {
    pub(crate) source: &'a S,
    pub(crate) denominator: Denominator,
    pub(crate) backup: &'a B,
    pub(crate) values: &'a [B::Value],
    ghost units: { denominator.value ≡ (S.Source.model source.now).denominator },
    ghost long: { length values.now ≡ (S.Source.model source.now).states },
}

impl<'a, S: Source, B: Backup> Round<'a, S, B> {
    // The mix of a choice.
    fn mix_choice(&self, state: usize, choice: usize, buffer: &mut Buffer) -> B::Value
        requires there { choice < length ((S.Source.model self.now.source.now).choices state) }
        ensures { (d : B.Value) → result ≡ mixed_row (B.Backup.mixed self.now.backup.now) (S.Source.model self.now.source.now) (told self.now.values.now d) (row (S.Source.model self.now.source.now) state choice) }
    {
        let row = lend_row(self.source, state, choice, buffer);
        self.backup.mix(&self.denominator, row, self.values)
    }

    // The best mix among the choices of a state.
    pub(crate) fn best_mix(&self, state: usize, buffer: &mut Buffer) -> B::Value
        requires there { state < (S.Source.model self.now.source.now).states }
        ensures { (d : B.Value) → result ≡ backed_up (B.Backup.chosen self.now.backup.now) (B.Backup.mixed self.now.backup.now) (S.Source.model self.now.source.now) (told self.now.values.now d) state }
    {
        let mut best = self.mix_choice(state, 0, buffer);
        for choice in 1..self.source.choices(state) {
            let next = self.mix_choice(state, choice, buffer);
            best = self.backup.better(best, next);
        }
        best
    }
}
