ghost use Rattle.std.specs.Prelude.{◌≡◌, IfOk, string_bytes};
ghost use Rattle.printing.specs.Layouts.{model_content, state_of, laid_state};
ghost use Rattle.printing.specs.Listings.{listing, framed, totals_of, show_text};
ghost use Rattle.text.specs.Texts.{text_of};

use crate::counts::{branch_count, choice_count};
use crate::lay::Laid;
use crate::style::{Listing, ModelText};
use crate::totals::Totals;
use model::source::Source;
use std::alloc::{AllocError, Global};

// A model text around the lines of its states.
fn framed(heap: Global, states: usize, denominator: u32, lines: &str) -> Result<String, AllocError>
    ensures { IfOk result (λ s. string_bytes s ≡ framed states denominator lines.now) }
{
    format!(in heap; "mdp\t{states}\t{denominator}\n{lines}end\n")
}

// One state of a source, as `show` lists it. Here and below `heap` and `source` are two arguments: a function is called once with
// them and makes the `Laid` of both that holds them, which a caller would otherwise have to know.
pub fn state_text<S: Source>(heap: Global, source: &S, state: usize) -> Result<String, AllocError>
    ensures { IfOk result (λ s. string_bytes s ≡ laid_state listing state (state_of (S.Source.model source.now) state)) }
{
    Laid::new(heap, Listing, source).state(state)
}

// The model text of a source.
pub fn model_text<S: Source>(heap: Global, source: &S) -> Result<String, AllocError>
    ensures { IfOk result (λ s. string_bytes s ≡ text_of (model_content (S.Source.model source.now))) }
{
    let lines = Laid::new(heap, ModelText, source).states()?;
    framed(heap, source.states(), source.denominator(), lines.as_str())
}

// The totals of a source whose text has so many bytes.
pub fn totals<S: Source>(source: &S, bytes: usize) -> Totals
    ensures { result ≡ totals_of bytes (model_content (S.Source.model source.now)) }
{
    Totals {
        bytes,
        states: source.states(),
        denominator: source.denominator(),
        choices: choice_count(source),
        branches: branch_count(source),
    }
}

// What `show` prints of a source whose text has so many bytes.
pub fn show_text<S: Source>(heap: Global, source: &S, bytes: usize) -> Result<String, AllocError>
    ensures { IfOk result (λ s. string_bytes s ≡ show_text bytes (model_content (S.Source.model source.now))) }
{
    let mut text = totals(source, bytes).to_string(heap)?;
    let lines = Laid::new(heap, Listing, source).states()?;
    text.push_str(lines.as_str())?;
    Ok(text)
}
