use crate::branch::Branch;
use crate::labels::Labels;
use crate::source::Source;

// A borrowed source is a source: it stands for the model of the one that it borrows.
impl<'a, S: Source> Source for &'a S {
    ghost model = { λ x. S.Source.model x.now };

    ghost lawful = { λ x. S.Source.lawful x.now };

    fn states(&self) -> usize {
        (**self).states()
    }

    fn denominator(&self) -> u32 {
        (**self).denominator()
    }

    fn labels(&self, state: usize) -> Labels {
        (**self).labels(state)
    }

    fn choices(&self, state: usize) -> usize {
        (**self).choices(state)
    }

    fn branches(&self, state: usize, choice: usize) -> usize {
        (**self).branches(state, choice)
    }

    fn branch(&self, state: usize, choice: usize, index: usize) -> Branch {
        (**self).branch(state, choice, index)
    }

    fn read_row(&self, state: usize, choice: usize, into: &mut [Branch]) -> usize {
        (**self).read_row(state, choice, into)
    }

    fn kept_row(&self, state: usize, choice: usize) -> Option<&[Branch]> {
        (**self).kept_row(state, choice)
    }
}
