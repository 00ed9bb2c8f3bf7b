ghost use Rattle.std.specs.Prelude.{◌≡◌, length};
ghost use Rattle.printing.specs.Layouts.{model_content};
ghost use Rattle.text.specs.Contents.{all_choices, all_branches};

use model::source::Source;

// How many choices a source has in all.
pub(crate) fn choice_count<S: Source>(source: &S) -> usize
    ensures { result ≡ length (all_choices (model_content (S.Source.model source.now)).states) }
{
    (0..source.states())
        .map(|state| source.choices(state))
        .sum()
}

// How many branches the choices of a state have.
fn state_branches<S: Source>(source: &S, state: usize) -> usize
    ensures { result ≡ length (all_branches ((S.Source.model source.now).choices state)) }
{
    (0..source.choices(state))
        .map(|choice| source.branches(state, choice))
        .sum()
}

// How many branches a source has in all.
pub(crate) fn branch_count<S: Source>(source: &S) -> usize
    ensures { result ≡ length (all_branches (all_choices (model_content (S.Source.model source.now)).states)) }
{
    (0..source.states())
        .map(|state| state_branches(source, state))
        .sum()
}
