ghost use Rattle.std.specs.Prelude.{◌≡◌, true};
ghost use Rattle.calls_text.specs.Unplayed.{unplayed};

use replay::call::Call;

// A call that has no answer yet.
#[derive(Drop)]
pub(crate) struct Unplayed {
    pub(crate) call: Call,
    ghost unanswered: { unplayed call ≡ true },
}
