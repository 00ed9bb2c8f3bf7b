ghost use Rattle.std.specs.Prelude.{◌≡◌, IfOk, string_bytes};
ghost use Rattle.printing.specs.Layouts.{laid_choice, laid_state, laid_states, state_of, model_content};
ghost use Rattle.model.specs.Mdp.{row};

use crate::style::Style;
use model::source::Source;
use std::alloc::{AllocError, Global};

// A source to be laid out in a style, and where the text is made. Each part is a text of its own, and is proved here once for both
// styles, by what a style says of its texts. A `Display` would say as much by its `output`, but be a type for each part of a style,
// in each style, besides one for each loop here.
#[derive(Clone, Copy)]
pub(crate) struct Laid<'a, S, L> {
    heap: Global,
    style: L,
    source: &'a S,
}

impl<'a, S: Source, L: Style> Laid<'a, S, L> {
    // The source, to be laid out in the style.
    pub(crate) fn new(heap: Global, style: L, source: &'a S) -> Laid<'a, S, L>
        ensures style { result.style ≡ style }
        ensures source { result.source.now ≡ source.now }
    {
        Laid {
            heap,
            style,
            source,
        }
    }

    // One choice of the source, laid out.
    fn choice(&self, state: usize, choice: usize) -> Result<String, AllocError>
        ensures { IfOk result (λ s. string_bytes s ≡ laid_choice (L.Style.layout self.now.style) choice (row (S.Source.model self.now.source.now) state choice)) }
    {
        let mut out = self.style.choice(self.heap, choice)?;
        for index in 0..self.source.branches(state, choice) {
            let branch = self.source.branch(state, choice, index);
            let text = self.style.branch(self.heap, index, branch)?;
            out.push_str(text.as_str())?;
        }
        Ok(out)
    }

    // One state of the source, laid out.
    pub(crate) fn state(&self, state: usize) -> Result<String, AllocError>
        ensures { IfOk result (λ s. string_bytes s ≡ laid_state (L.Style.layout self.now.style) state (state_of (S.Source.model self.now.source.now) state)) }
    {
        let mut out = self
            .style
            .state(self.heap, state, &self.source.labels(state))?;
        for choice in 0..self.source.choices(state) {
            let text = self.choice(state, choice)?;
            out.push_str(text.as_str())?;
        }
        out.push_str(self.style.close())?;
        Ok(out)
    }

    // The states of the source, laid out.
    pub(crate) fn states(&self) -> Result<String, AllocError>
        ensures { IfOk result (λ s. string_bytes s ≡ laid_states (L.Style.layout self.now.style) (model_content (S.Source.model self.now.source.now)).states) }
    {
        let mut out = String::new(self.heap);
        for state in 0..self.source.states() {
            let text = self.state(state)?;
            out.push_str(text.as_str())?;
        }
        Ok(out)
    }
}
