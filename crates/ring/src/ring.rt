ghost use Rattle.std.specs.Prelude.{◌<◌, ◌≤◌};
ghost use Rattle.ring.specs.Rings.{ring_model};
ghost use Rattle.ring.specs.Laws.{ring_lawful};

use model::branch::Branch;
use model::labels::Labels;
use model::source::Source;

// A ring of states: each goes on to the next with `weight` out of `denominator`, the last to state 0, or else stays.
#[derive(Clone, Copy, PartialEq, Eq, Debug)]
pub struct Ring {
    pub states: usize,
    pub denominator: u32,
    pub weight: u32,
    ghost round: { (2 ≤ states) × (states ≤ 512) },
    ghost divisible: { denominator ≤ 1000000 },
    ghost weighted: { (1 ≤ weight) × (weight < denominator) },
}

// A ring is a source: each state has one choice.
impl Source for Ring {
    ghost model = { λ x. ring_model x.states x.denominator x.weight };

    ghost lawful = { λ x. ring_lawful x.states x.denominator x.weight x.round x.divisible x.weighted };

    fn states(&self) -> usize {
        self.states
    }

    fn denominator(&self) -> u32 {
        self.denominator
    }

    fn labels(&self, _state: usize) -> Labels {
        Labels::default()
    }

    fn choices(&self, state: usize) -> usize {
        usize::from(state < self.states)
    }

    fn branches(&self, state: usize, choice: usize) -> usize {
        if state < self.states && choice == 0 {
            2
        } else {
            0
        }
    }

    fn branch(&self, state: usize, choice: usize, index: usize) -> Branch {
        if state >= self.states || choice > 0 {
            return Branch::default();
        }
        match (state == self.states - 1, index) {
            (true, 0) => Branch {
                target: 0,
                weight: self.weight,
            },
            (true, 1) | (false, 0) => Branch {
                target: state,
                weight: self.denominator - self.weight,
            },
            (false, 1) => Branch {
                target: state + 1,
                weight: self.weight,
            },
            _ => Branch::default(),
        }
    }
}
