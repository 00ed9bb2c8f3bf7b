ghost use Rattle.std.specs.Prelude.{◌≡◌, ℕ, ◌<◌, length, Some, IfOk, string_bytes, Option};
ghost use Rattle.std.specs.Option.{option_map};
ghost use Rattle.theory.specs.Found.{TwoEnds};
ghost use Rattle.trial.specs.PathEnds.{Told};
ghost use Rattle.limits_text.specs.Tables.{verdict_word, verdict_cells, state_line, heading, units_at, table};

use std::alloc::{AllocError, Global};
use std::fmt;
use std::fmt::Write;
use trial::two_ends::Ends;

// The word for a verdict byte: a judge leaves a row of bytes, of which any but the three that it writes has to have a word, too.
fn verdict_word(byte: u8) -> &'static str
    ensures { result.now ≡ verdict_word byte }
{
    match byte {
        0 => "no",
        1 => "yes",
        _ => "undecided",
    }
}

// What stands behind a state in its line: its verdict byte in a word, and its lower and upper end in units if there are any.
#[derive(Clone, Copy)]
struct Cells {
    verdict: u8,
    ends: Option<(u32, u32)>,
}

impl fmt::Display for Cells {
    ghost output = { λ c. Some (verdict_cells c.verdict c.ends) };

    #[tactic(auto, using(crate::proofs::Cells::right_written, crate::proofs::Cells::word_written))]
    fn fmt<W: fmt::Write>(&self, f: &mut fmt::Formatter<W>) -> fmt::Result {
        let word = verdict_word(self.verdict);
        match self.ends {
            None => write!(f, "{word}"),
            Some((lower, upper)) => write!(f, "{word:<9}  {lower:>10}  {upper:>10}"),
        }
    }
}

// The line of a state.
#[derive(Clone, Copy)]
struct StateLine(usize, Cells);

impl fmt::Display for StateLine {
    ghost output = { λ l. Some (state_line l.0 l.1.verdict l.1.ends) };

    #[tactic(auto, using(crate::proofs::Cells::right_written))]
    fn fmt<W: fmt::Write>(&self, f: &mut fmt::Formatter<W>) -> fmt::Result {
        let StateLine(state, cells) = *self;
        write!(f, "  {state:>5}  {cells}\n")
    }
}

// The names of the columns, of a table with ends and of one without.
fn heading(ends: Option<&Ends>) -> &'static str
    ensures { result.now ≡ heading (option_map (λ x. x.now) ends.entry) }
{
    match ends {
        None => "  state  verdict\n",
        Some(_) => "  state  verdict         lower       upper\n",
    }
}

// Both ends at a state, in units, if there are ends. They are told as `two` here and below, for the reason that the
// report of a formula has.
fn units_at(ends: Option<&Ends>, state: usize) -> Option<(u32, u32)>
    ensures { (n : ℕ) (two : Option TwoEnds) → Told n two (option_map (λ x. x.now) ends.entry) → state < n → result ≡ units_at two state }
{
    let (lower, upper) = ends?.at(state)?;
    Some((lower.units(), upper.units()))
}

// The table of a row of verdict bytes, and of the ends that it was read off if there are any.
pub(crate) fn table(heap: Global, row: &[u8], ends: Option<&Ends>) -> Result<String, AllocError>
    ensures { (two : Option TwoEnds) → Told (length row.now) two (option_map (λ x. x.now) ends.entry) → IfOk result (λ s. string_bytes s ≡ table row.now two) }
{
    let mut out = String::from_str(heap, heading(ends))?;
    for (state, verdict) in row.iter().enumerate() {
        let cells = Cells {
            verdict: *verdict,
            ends: units_at(ends, state),
        };
        let line = StateLine(state, cells);
        write!(out, "{line}")?;
    }
    Ok(out)
}
