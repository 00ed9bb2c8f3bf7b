ghost use Rattle.std.specs.Prelude.{◌≡◌, ℕ, ◌+◌, ◌<◌, ◌≤◌, length, take, slice_index_or, IfSome};
ghost use Rattle.model.specs.Mdp.{Mdp, Lawful, row, no_branch, over};

use crate::branch::Branch;
use crate::labels::Labels;

// A source of rows. It stands for one lawful model, and each question is answered from that model: alike each
// time, with no refusal, and with 0 or no labels for what does not exist.
pub trait Source {
    // the model that the source stands for
    ghost model: { Self → Mdp };

    // the model keeps the laws of a model
    ghost lawful: { (x : Self) → Lawful (model x) };

    // How many states there are.
    fn states(&self) -> usize
        ensures { result ≡ (model self.now).states };

    // The denominator that the weights of each row add up to.
    fn denominator(&self) -> u32
        ensures { result ≡ (model self.now).denominator };

    // The labels of a state.
    fn labels(&self, state: usize) -> Labels
        ensures { result.letters ≡ (model self.now).labels state };

    // How many choices a state has.
    fn choices(&self, state: usize) -> usize
        ensures { result ≡ length ((model self.now).choices state) };

    // How many branches a choice has.
    fn branches(&self, state: usize, choice: usize) -> usize
        ensures { result ≡ length (row (model self.now) state choice) };

    // One branch of a choice.
    fn branch(&self, state: usize, choice: usize, index: usize) -> Branch
        ensures { result ≡ slice_index_or (row (model self.now) state choice) index no_branch };

    // Writes the branches of a choice over the front of `into`, as many as fit, and says how many there are.
    fn read_row(&self, state: usize, choice: usize, into: &mut [Branch]) -> usize
        ensures count { result ≡ length (row (model self.now) state choice) }
        ensures written { into.new ≡ over (row (model self.now) state choice) into.old }
    {
        let count = self.branches(state, choice);
        let room = count.min(into.len());
        for (i, branch) in into[..room].iter_mut().enumerate() {
            *branch = self.branch(state, choice, i);
        }
        count
    }

    // The branches of a choice, lent from where the source keeps them; nothing where it keeps none, and they are to be read.
    fn kept_row(&self, state: usize, choice: usize) -> Option<&[Branch]>
        ensures { IfSome result (λ r. r.now ≡ row (model self.now) state choice) }
    {
        None
    }
}
