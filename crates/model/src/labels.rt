ghost use Rattle.std.specs.Prelude.{◌≡◌, length};
ghost use Rattle.model.specs.Mdp.{no_labels};

// A set of labels: for each of the letters a to p, whether it is in the set.
#[derive(Clone, Copy, PartialEq, Eq, Debug)]
pub struct Labels {
    pub letters: [bool; 16],
    ghost sixteen: { length letters ≡ 16 },
}

// The empty set is what a state has of labels by default. It is written out: a derive is refused where a struct has a ghost
// field.
impl Default for Labels {
    ghost is_default = { λ l. l.letters ≡ no_labels };

    fn default() -> Labels {
        Labels {
            letters: [false; 16],
        }
    }
}
