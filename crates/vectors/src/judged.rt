use crate::chance::{Places, each_state};
use crate::failure::Failure;
use model::source::Source;
use records::record::{BLANK, Record};
use std::alloc::Global;
use std::fmt::Write;
use trial::judge::judge_with_ends;
use trial::trial::Trial;

// What is lent to a judge: the records and the scratch of any formula over any source, and the output of this one.
#[derive(Drop)]
struct Lent {
    records: Vec<Record>,
    scratch: Vec<u8>,
    out: Vec<u8>,
}

impl Lent {
    // As much as any formula needs over this source.
    fn new<S: Source>(heap: Global, source: &S) -> Result<Lent, Failure> {
        Ok(Lent {
            records: vec![in heap; BLANK; 64]?,
            scratch: vec![in heap; 0u8; 32_768]?,
            out: vec![in heap; 0u8; source.states()]?,
        })
    }
}

// The verdicts that a trial judges a formula to have: a digit for each state, 0 for no, 1 for yes and 2 for undecided.
pub(crate) fn verdicts<S: Source>(
    heap: Global,
    source: &S,
    formula: &str,
) -> Result<String, Failure> {
    let mut lent = Lent::new(heap, source)?;
    let mut trial = Trial::over(source);
    trial.judge(
        formula.as_bytes(),
        lent.records.as_mut_slice(),
        lent.scratch.as_mut_slice(),
        lent.out.as_mut_slice(),
    )?;
    let mut out = String::from_str(heap, " ")?;
    for verdict in &lent.out {
        write!(out, "{verdict}")?;
    }
    Ok(out)
}

// The ends at each state that the verdicts of a formula are read off.
pub(crate) fn ends<S: Source>(
    heap: Global,
    source: &S,
    formula: &str,
    places: Places,
) -> Result<String, Failure> {
    let mut lent = Lent::new(heap, source)?;
    let judged = judge_with_ends(
        source,
        formula.as_bytes(),
        lent.records.as_mut_slice(),
        lent.scratch.as_mut_slice(),
        lent.out.as_mut_slice(),
    )?;
    let ends = judged.ends.ok_or(Failure::NoQuestion)?;
    each_state(heap, source.states(), places, |state| {
        ends.at(state).ok_or(Failure::NoQuestion)
    })
}
