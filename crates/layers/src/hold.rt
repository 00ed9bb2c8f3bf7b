ghost use Rattle.std.specs.Prelude.{◌≡◌, false, replicate, slice_index_or};
ghost use Rattle.layers.specs.Holds.{held_model, back};
ghost use Rattle.model.specs.HoldLaws.{hold_lawful};
ghost use Rattle.layers.specs.HoldAnswers.{Ran};

use crate::fault::HoldFault;
use model::branch::Branch;
use model::labels::Labels;
use model::limits::STATES;
use model::source::Source;

// The hold layer: the source below with some states held.
// No call can change the source below while the layer lies over it: it is taken by value into a private field that
// no function assigns or lends for writing, and where it is itself a reference, the borrow lasts as long as the layer.
#[derive(Drop)]
pub struct Hold<S> {
    below: S,
    // one flag for each state that a model can have: a layer has no heap
    held: [bool; STATES],
}

impl<S: Source> Hold<S> {
    // A layer over this source, with no state held: it stands for the same model.
    pub fn over(below: S) -> Self
        ensures source { result.below ≡ below }
        ensures flags { result.held ≡ replicate 512 false }
        ensures model { held_model (S.Source.model result.below) result.held ≡ S.Source.model below }
    {
        Hold {
            below,
            held: [false; STATES],
        }
    }

    // Holds one more state, or refuses one that does not exist.
    pub fn hold(&mut self, state: usize) -> Result<(), HoldFault>
        ensures source { self.new.below ≡ self.old.below }
        ensures ran { Ran (S.Source.model self.old.below) state self.old.held self.new.held result }
    {
        if state >= self.below.states() {
            return Err(HoldFault::Held);
        }
        self.held[state] = true;
        Ok(())
    }

    // The source below.
    pub fn below(&self) -> &S
        ensures { result.now ≡ self.now.below }
    {
        &self.below
    }

    // The one branch of a held state: back to itself with the whole denominator. None where no such state is held.
    fn back(&self, state: usize) -> Option<Branch>
        ensures { result ≡ back (S.Source.model self.now.below) self.now.held state }
    {
        (state < self.below.states() && self.held[state]).then(|| Branch {
            target: state,
            weight: self.below.denominator(),
        })
    }
}

// The hold layer is a source: a held state only stays, and all else is told by the source below.
impl<S: Source> Source for Hold<S> {
    ghost model = { λ h. held_model (S.Source.model h.below) h.held };

    ghost lawful = { λ h. hold_lawful (λ s. slice_index_or h.held s false) (S.Source.model h.below) (S.Source.lawful h.below) };

    fn states(&self) -> usize {
        self.below.states()
    }

    fn denominator(&self) -> u32 {
        self.below.denominator()
    }

    fn labels(&self, state: usize) -> Labels {
        self.below.labels(state)
    }

    fn choices(&self, state: usize) -> usize {
        match self.back(state) {
            None => self.below.choices(state),
            Some(_) => 1,
        }
    }

    fn branches(&self, state: usize, choice: usize) -> usize {
        match (self.back(state), choice) {
            (None, _) => self.below.branches(state, choice),
            (Some(_), 0) => 1,
            (Some(_), _) => 0,
        }
    }

    fn branch(&self, state: usize, choice: usize, index: usize) -> Branch {
        match (self.back(state), choice, index) {
            (None, _, _) => self.below.branch(state, choice, index),
            (Some(back), 0, 0) => back,
            (Some(_), _, _) => Branch::default(),
        }
    }

    fn read_row(&self, state: usize, choice: usize, into: &mut [Branch]) -> usize {
        match (self.back(state), choice) {
            (None, _) => self.below.read_row(state, choice, into),
            (Some(back), 0) => {
                if let [first, ..] = into {
                    *first = back;
                }
                1
            }
            (Some(_), _) => 0,
        }
    }

    fn kept_row(&self, state: usize, choice: usize) -> Option<&[Branch]> {
        if self.back(state).is_some() {
            return None;
        }
        self.below.kept_row(state, choice)
    }
}
