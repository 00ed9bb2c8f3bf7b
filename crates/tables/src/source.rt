ghost use Rattle.std.specs.Prelude.{◌≡◌, [], MatchOption};
ghost use Rattle.model.specs.Mdp.{row};
ghost use Rattle.text.specs.Contents.{model_of};
ghost use Rattle.flat.specs.Flats.{content};
ghost use Rattle.tables.specs.KeepsLaws.{keeps_within};
ghost use Rattle.tables.specs.Spans.{Stands};

use crate::tables::Tables;
use model::branch::Branch;
use model::labels::Labels;
use model::source::Source;

// The tables are a source: they stand for the model of what they keep.
impl Source for Tables {
    ghost model = { λ t. model_of (content t.kept) };

    ghost lawful = { λ t. (keeps_within (content t.kept) t.within).lawful };

    fn states(&self) -> usize {
        self.kept.labels.len()
    }

    fn denominator(&self) -> u32 {
        self.kept.denominator
    }

    fn labels(&self, state: usize) -> Labels {
        self.kept.labels.get(state).copied().unwrap_or_default()
    }

    fn choices(&self, state: usize) -> usize {
        if state < self.kept.labels.len() {
            self.kept.starts[state + 1] - self.kept.starts[state]
        } else {
            0
        }
    }

    fn branches(&self, state: usize, choice: usize) -> usize {
        self.row(state, choice).len()
    }

    fn branch(&self, state: usize, choice: usize, index: usize) -> Branch {
        self.row(state, choice)
            .get(index)
            .copied()
            .unwrap_or_default()
    }

    fn read_row(&self, state: usize, choice: usize, into: &mut [Branch]) -> usize {
        let row = self.row(state, choice);
        let count = row.len().min(into.len());
        into[..count].copy_from_slice(&row[..count]);
        row.len()
    }

    fn kept_row(&self, state: usize, choice: usize) -> Option<&[Branch]> {
        Some(self.row(state, choice))
    }
}

impl Tables {
    // The number of a choice among those of all states, if there is such a choice.
    // It is no `then` on the test: no proof was found of what the closure would need for its index and its sum, and a clause at
    // the closure would be longer than this.
    fn choice_number(&self, state: usize, choice: usize) -> Option<usize>
        ensures { MatchOption result (row (model_of (content self.now.kept)) state choice ≡ []) (Stands self.now.kept (row (model_of (content self.now.kept)) state choice)) }
    {
        if choice < self.choices(state) {
            Some(self.kept.starts[state] + choice)
        } else {
            None
        }
    }

    // The branches of a choice; of a choice that does not exist, none.
    pub(crate) fn row(&self, state: usize, choice: usize) -> &[Branch]
        ensures { result.now ≡ row (model_of (content self.now.kept)) state choice }
    {
        let Some(at) = self.choice_number(state, choice) else {
            return &[];
        };
        &self.kept.branches[self.kept.offsets[at]..self.kept.offsets[at + 1]]
    }
}
