ghost use Rattle.std.specs.Prelude.{◌≡◌, IfOk, string_bytes};
ghost use Rattle.printing.specs.Layouts.{Layout};
ghost use Rattle.printing.specs.Listings.{model_text, listing, lead};

use crate::labels::Letters;
use model::branch::Branch;
use model::labels::Labels;
use std::alloc::{AllocError, Global};

// A way to lay a model out as text.
pub(crate) trait Style {
    // the layout that the style stands for
    ghost layout: { Self → Layout };

    // The text that begins a state.
    fn state(&self, heap: Global, state: usize, labels: &Labels) -> Result<String, AllocError>
        ensures { IfOk result (λ s. string_bytes s ≡ (layout self.now).state state labels.now.letters) };

    // The text that begins a choice.
    fn choice(&self, heap: Global, choice: usize) -> Result<String, AllocError>
        ensures { IfOk result (λ s. string_bytes s ≡ (layout self.now).choice choice) };

    // The text that tells a branch.
    fn branch(&self, heap: Global, index: usize, branch: Branch) -> Result<String, AllocError>
        ensures { IfOk result (λ s. string_bytes s ≡ (layout self.now).branch index branch) };

    // The text that ends a state.
    fn close(&self) -> &'static str
        ensures { result.now ≡ (layout self.now).close };
}

// The style of model text.
#[derive(Clone, Copy)]
pub(crate) struct ModelText;

impl Style for ModelText {
    ghost layout = { λ _. model_text };

    fn state(&self, heap: Global, state: usize, labels: &Labels) -> Result<String, AllocError> {
        let letters = Letters(labels);
        format!(in heap; "s\t{letters}\n")
    }

    fn choice(&self, heap: Global, choice: usize) -> Result<String, AllocError> {
        String::from_str(heap, "c\n")
    }

    fn branch(&self, heap: Global, index: usize, branch: Branch) -> Result<String, AllocError> {
        let Branch { target, weight } = branch;
        format!(in heap; "b\t{target}\t{weight}\n")
    }

    fn close(&self) -> &'static str {
        ""
    }
}

// What stands before the first of several, or before a later one.
fn lead(first: &'static str, later: &'static str, index: usize) -> &'static str
    ensures { result.now ≡ lead first.now later.now index }
{
    if index == 0 { first } else { later }
}

// The style of a listing to read.
#[derive(Clone, Copy)]
pub(crate) struct Listing;

impl Style for Listing {
    ghost layout = { λ _. listing };

    fn state(&self, heap: Global, state: usize, labels: &Labels) -> Result<String, AllocError> {
        let letters = Letters(labels);
        format!(in heap; "state {state} labels {letters}")
    }

    fn choice(&self, heap: Global, choice: usize) -> Result<String, AllocError> {
        let lead = lead(": choice ", "; choice ", choice);
        format!(in heap; "{lead}{choice}")
    }

    fn branch(&self, heap: Global, index: usize, branch: Branch) -> Result<String, AllocError> {
        let lead = lead(": ", ", ", index);
        let Branch { target, weight } = branch;
        format!(in heap; "{lead}{target} with {weight}")
    }

    fn close(&self) -> &'static str {
        "\n"
    }
}
