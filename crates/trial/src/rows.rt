ghost use Rattle.std.specs.Prelude.{◌≡◌, ℕ, ◌<◌, ◌≤◌, true, length, slice_index, slice_index_or};
ghost use Rattle.formula.specs.Tokens.{meant};
ghost use Rattle.theory.specs.Formulas.{has_label};
ghost use Rattle.theory.specs.Verdicts.{known, negated, joined, read_off};
ghost use Rattle.rules.specs.declared.part.Part.{Part as PartValue};
ghost use Rattle.rules.specs.Parts.{units_of};
ghost use Rattle.trial.specs.declared.verdict.Verdict.{Verdict as VerdictValue};
ghost use Rattle.trial.specs.VerdictBytes.{verdict_number};
ghost use Rattle.trial.specs.Rows.{sets, told_sets, bytes};

use crate::per_state::PerState;
use crate::threshold::Threshold;
use crate::verdict::Verdict;
use model::source::Source;
use rules::part::Part;

// Writes the byte of each state's verdict. A row is a list of bytes that the caller lends: 0 for no, 1 for yes and 2 for undecided.
pub(crate) fn write_row<F: Fn(usize) -> Verdict>(row: &mut [u8], verdict: F)
    requires { (s : ℕ) → s < length row.old → F.pre verdict s }
    ensures long { length row.new ≡ length row.old }
    ensures written { (s : ℕ) → s < length row.old → (v : VerdictValue) × F.post verdict s v × (slice_index row.new s ≡ verdict_number v) }
{
    for (state, byte) in row.iter_mut().enumerate() {
        *byte = verdict(state).number();
    }
}

// The same verdict at each state: a yes, or a no.
pub(crate) fn constant_row(holds: bool, row: &mut [u8])
    ensures { row.new ≡ bytes (length row.old) (known (λ _. holds)) }
{
    row.fill(Verdict::by(holds, holds).number());
}

// The row of `true`: a yes at each state.
pub(crate) fn truth_row(row: &mut [u8])
    ensures { row.new ≡ bytes (length row.old) (known (λ _. true)) }
{
    constant_row(true, row);
}

// The row of a label: a yes at each state that has the letter.
pub(crate) fn label_row<S: Source>(source: &S, letter: usize, row: &mut [u8])
    requires { letter < 16 }
    ensures { row.new ≡ bytes (length row.old) (known (has_label (S.Source.model source.now) letter)) }
{
    write_row(row, |state| {
        let there = source.labels(state).letters[letter];
        Verdict::by(there, there)
    });
}

// The row of a negation: a yes where the part is a no. Here and in a conjunction, of a part's byte 1 is sure and any but 0 is
// possible: a part may have any byte, so a byte is compared and not turned into a `Verdict`.
pub(crate) fn negate_row(part: &[u8], row: &mut [u8])
    requires { length part.now ≡ length row.old }
    ensures { row.new ≡ bytes (length row.old) (negated (sets part.now)) }
{
    write_row(row, |state| Verdict::by(part[state] == 0, part[state] != 1));
}

// The row of a conjunction: a yes where both parts are, and a no where one is.
pub(crate) fn join_rows(left: &[u8], right: &[u8], row: &mut [u8])
    requires left_long { length left.now ≡ length row.old }
    requires right_long { length right.now ≡ length row.old }
    ensures { row.new ≡ bytes (length row.old) (joined (sets left.now) (sets right.now)) }
{
    write_row(row, |state| {
        let sure = left[state] == 1 && right[state] == 1;
        let possible = left[state] != 0 && right[state] != 0;
        Verdict::by(sure, possible)
    });
}

// The row of the verdicts that two lists of marks tell, of the sure states and of the possible ones.
pub(crate) fn mark_row(sures: &PerState<bool>, possibles: &PerState<bool>, row: &mut [u8])
    requires { length row.old ≤ 512 }
    ensures { row.new ≡ bytes (length row.old) (told_sets sures.now.values possibles.now.values) }
{
    write_row(
        row,
        |state| Verdict::by(sures.at(state), possibles.at(state)),
    );
}
