ghost use Rattle.std.specs.Prelude.{◌≡◌, ◌<◌, slice_index_or};
ghost use Rattle.model.specs.Mdp.{no_branch};
ghost use Rattle.ladder.specs.Ladders.{climb};
ghost use Rattle.ladder.specs.Makes.{model_of, lawful_of};

use crate::ladder::Ladder;
use model::branch::Branch;
use model::labels::Labels;
use model::source::Source;
use std::cmp::Ordering;

impl Ladder {
    // One branch of a climb: back to 0 with what the weight leaves, if it leaves any, and on to the next state.
    fn climb(&self, state: usize, index: usize) -> Branch
        requires { state < self.now.rungs }
        ensures { result ≡ slice_index_or (climb self.now.denominator self.now.weight state) index no_branch }
    {
        match (self.weight < self.denominator, index) {
            (true, 0) => Branch {
                target: 0,
                weight: self.denominator - self.weight,
            },
            (true, 1) | (false, 0) => Branch {
                target: state + 1,
                weight: self.weight,
            },
            _ => Branch::default(),
        }
    }
}

// A ladder is a source: below the last state, choice 0 stays and choice 1 climbs; the last state only stays.
impl Source for Ladder {
    ghost model = { λ l. model_of l };

    ghost lawful = { λ l. lawful_of l };

    fn states(&self) -> usize {
        self.rungs + 1
    }

    fn denominator(&self) -> u32 {
        self.denominator
    }

    fn labels(&self, state: usize) -> Labels {
        let mut labels = Labels::default();
        if state == self.rungs {
            labels.letters[0] = true;
        } else if state == 0 {
            labels.letters[1] = true;
        }
        labels
    }

    fn choices(&self, state: usize) -> usize {
        match state.cmp(&self.rungs) {
            Ordering::Less => 2,
            Ordering::Equal => 1,
            Ordering::Greater => 0,
        }
    }

    fn branches(&self, state: usize, choice: usize) -> usize {
        match (state.cmp(&self.rungs), choice) {
            (Ordering::Less, 1) if self.weight < self.denominator => 2,
            (Ordering::Less, 0 | 1) | (Ordering::Equal, 0) => 1,
            _ => 0,
        }
    }

    fn branch(&self, state: usize, choice: usize, index: usize) -> Branch {
        match (state.cmp(&self.rungs), choice, index) {
            (Ordering::Less, 1, _) => self.climb(state, index),
            (Ordering::Less | Ordering::Equal, 0, 0) => Branch {
                target: state,
                weight: self.denominator,
            },
            _ => Branch::default(),
        }
    }
}
