ghost use Rattle.std.specs.Prelude.{◌≡◌, IfOk, OnOk, OnErr, string_bytes};
ghost use Rattle.layers.specs.Holds.{held_model};
ghost use Rattle.calls_text.specs.Holdings.{holds_text, all_held, HoldsFront};

use crate::answer_text::done_text;
use layers::hold::Hold;
use model::source::Source;
use std::alloc::{AllocError, Global};

// Holds states of the layer in turn, and prints what came of each. Where there is no memory for this, the states of some
// beginning of the list are held.
pub fn hold_states<S: Source>(
    heap: Global,
    layer: &mut Hold<S>,
    states: &[usize],
) -> Result<String, AllocError>
    ensures text { IfOk result (λ s.
        string_bytes s ≡ holds_text (S.model layer.old.below).states states.now) }
    ensures source { layer.new.below ≡ layer.old.below }
    ensures model { OnOk result (held_model (S.model layer.new.below) layer.new.held
        ≡ all_held states.now (held_model (S.model layer.old.below) layer.old.held)) }
    ensures begun { OnErr result (HoldsFront
        (held_model (S.model layer.old.below) layer.old.held)
        (held_model (S.model layer.new.below) layer.new.held) states.now) }
{
    let mut out = String::new(heap);
    for state in states {
        let text = done_text(heap, layer.hold(*state))?;
        out.push_str(text.as_str())?;
    }
    Ok(out)
}
