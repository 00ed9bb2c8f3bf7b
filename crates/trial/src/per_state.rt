ghost use Rattle.std.specs.Prelude.{◌≡◌, ℕ, ◌<◌, ◌≤◌, length, slice_index, slice_index_or};

use model::limits::STATES;

// A value for each state that a source may have. It is an array of a fixed length, since nothing may want memory here: the
// making of a trial cannot fail, and no call on one may fail for memory.
// A list of bytes or a row is asked to have at most as many places where it meets these values: its caller knows that of it by
// the source's states, and a type of lists so short would be made at each of these calls.
#[derive(Drop)]
pub(crate) struct PerState<T> {
    pub(crate) values: [T; STATES],
    ghost room: { length values ≡ 512 },
}

impl<T: Copy> PerState<T> {
    // What `f` makes of the byte of each state, and `rest` for the states past the bytes.
    pub(crate) fn of<F: Fn(u8) -> T>(bytes: &[u8], rest: T, f: F) -> PerState<T>
        requires fits { length bytes.now ≤ 512 }
        requires callable { F.IsAlwaysCallable f }
        ensures { (d : T) (s : ℕ) → s < length bytes.now → F.post f (slice_index bytes.now s) (slice_index_or result.values s d) }
    {
        // Only the states that have a byte are gone through: `from_fn` would ask for each of the places. A value is written at its
        // state's number, since after a `zip` over `iter_mut` a proof knows nothing of the values written.
        let mut values = [rest; STATES];
        for (state, byte) in bytes.iter().enumerate() {
            values[state] = f(*byte);
        }
        PerState { values }
    }

    // The value of a state.
    pub(crate) fn at(&self, state: usize) -> T
        requires { state < 512 }
        ensures { (d : T) → result ≡ slice_index_or self.now.values state d }
    {
        self.values[state]
    }
}
