ghost use Rattle.std.specs.Prelude.{◌≡◌, None, Err, IfOk};
ghost use Rattle.trial.specs.declared.fault.TrialFault.{TrialFault as Faults};
ghost use Rattle.records.specs.declared.fault.JudgeFault.{JudgeFault as JudgeFaults};
ghost use Rattle.trial.specs.Judging.{lent, JudgeResult, query_after};
ghost use Rattle.trial.specs.Keeping.{standing, Kept};
ghost use Rattle.trial.specs.Answers.{answer, start_fault, started, advance_fault, advanced, ends_answer, verdict_answer};
ghost use Rattle.trial.specs.Meanings.{EndsMean, VerdictMeans, JudgeMeans};

use crate::aim::Aim;
use crate::ends::advanced_ends;
use crate::fault::TrialFault;
use crate::judge::judge_with_ends;
use crate::state::QueryState;
use crate::threshold::Threshold;
use crate::until::Until;
use crate::verdict::Verdict;
use layers::hold::Hold;
use model::source::Source;
use records::comparison::Comparison;
use records::fault::JudgeFault;
use records::record::Record;
use rounds::interval::Interval;
use rounds::run::MOST_ROUNDS;
use rules::part::Part;
use rules::preference::Preference;
use rules::units::WHOLE;

// A trial over a source: it borrows the source, so that no call changes that while the trial lasts, and has a hold layer over
// it and the query that stands, if one does. What it keeps is that query's.
// It has no model of its own: clauses name the source itself and all that the trial keeps, so that a refusal is seen to leave
// every field as it was.
#[derive(Drop)]
pub struct Trial<'a, S: Source> {
    layer: Hold<&'a S>,
    query: Option<QueryState>,
    pub ghost kept: { Kept (S.Source.model layer.below.now) layer.held query },
}

impl<'a, S: Source> Trial<'a, S> {
    // A trial over this source, with no query.
    pub fn over(source: &'a S) -> Self
        ensures source { result.layer.below.now ≡ source.now }
        ensures none { standing (S.Source.model result.layer.below.now).states result.query ≡ None }
    {
        Trial {
            layer: Hold::over(source),
            query: None,
        }
    }

    // Starts a query for "left until right": the marks have a byte for each state, 1 for those in the set and 0 for the others.
    pub fn start(&mut self, left: &[u8], right: &[u8], aim: Aim) -> Result<(), TrialFault>
        ensures answer { result ≡ answer (start_fault (S.Source.model self.old.layer.below.now).states left.now right.now) }
        ensures query { standing (S.Source.model self.new.layer.below.now).states self.new.query ≡ started (S.Source.model self.old.layer.below.now).states left.now right.now aim (standing (S.Source.model self.old.layer.below.now).states self.old.query) }
        ensures source { self.new.layer.below.now ≡ self.old.layer.below.now }
        ensures refused { (e : Faults) → result ≡ Err e → self.new ≡ self.old }
    {
        let until = Until::new(*self.layer.below(), left, right)?;
        self.layer = until.layer();
        self.query = Some(QueryState::begun(&until, aim));
        Ok(())
    }

    // Advances the query by so many rounds.
    pub fn advance(&mut self, count: u64) -> Result<(), TrialFault>
        ensures answer { result ≡ answer (advance_fault (standing (S.Source.model self.old.layer.below.now).states self.old.query) count) }
        ensures query { standing (S.Source.model self.new.layer.below.now).states self.new.query ≡ advanced (standing (S.Source.model self.old.layer.below.now).states self.old.query) count }
        ensures source { self.new.layer.below.now ≡ self.old.layer.below.now }
        ensures refused { (e : Faults) → result ≡ Err e → self.new ≡ self.old }
    {
        let Trial { layer, query } = self;
        let query = query.as_mut().ok_or(TrialFault::NoQuery)?;
        if count > MOST_ROUNDS - query.rounds {
            return Err(TrialFault::Rounds);
        }
        let preference = Preference::from(query.aim);
        query.ends = advanced_ends(layer, preference, &query.ends, count);
        query.rounds += count;
        Ok(())
    }

    // The lower and the upper end of the query at a state, and how many rounds it has had. A caller takes the three apart at the
    // call.
    pub fn ends(&self, state: usize) -> Result<(Part, Part, u64), TrialFault>
        ensures answer { result ≡ ends_answer (S.Source.model self.now.layer.below.now) (standing (S.Source.model self.now.layer.below.now).states self.now.query) state }
        ensures meaning { IfOk result (EndsMean (S.model self.now.layer.below.now)
            (standing (S.model self.now.layer.below.now).states self.now.query) state) }
    {
        let query = self.query.as_ref().ok_or(TrialFault::NoQuery)?;
        if state >= self.layer.states() {
            return Err(TrialFault::State);
        }
        let Interval { lower, upper } = query.ends.at(state);
        Ok((lower, upper, query.rounds))
    }

    // The verdict at a state on "left until right within as many steps as there were rounds": how its probability compares
    // with the bound, for every adversary.
    pub fn verdict(
        &self,
        state: usize,
        comparison: Comparison,
        bound: u64,
    ) -> Result<Verdict, TrialFault>
        ensures answer { result ≡ verdict_answer (S.Source.model self.now.layer.below.now) (standing (S.Source.model self.now.layer.below.now).states self.now.query) state comparison bound }
        ensures meaning { IfOk result (VerdictMeans (S.model self.now.layer.below.now)
            (standing (S.model self.now.layer.below.now).states self.now.query)
            state comparison bound) }
    {
        let query = self.query.as_ref().ok_or(TrialFault::NoQuery)?;
        let (lower, upper, _) = self.ends(state)?;
        if bound > u64::from(WHOLE) {
            return Err(TrialFault::Bound);
        }
        if Aim::from(comparison) != query.aim {
            return Err(TrialFault::Aim);
        }
        Ok(Threshold { comparison, bound }.read_off(Interval { lower, upper }))
    }

    // Judges the text of a formula over the source itself, whatever is held for the query. An accepted judge leaves no query
    // standing, and a refused one leaves all as it was.
    pub fn judge(
        &mut self,
        text: &[u8],
        records: &mut [Record],
        scratch: &mut [u8],
        out: &mut [u8],
    ) -> Result<usize, JudgeFault>
        ensures answer { JudgeResult (S.Source.model self.old.layer.below.now) text.now (lent records.old scratch.old out.old) (lent records.new scratch.new out.new) result }
        ensures query { standing (S.Source.model self.new.layer.below.now).states self.new.query ≡ query_after result (standing (S.Source.model self.old.layer.below.now).states self.old.query) }
        ensures source { self.new.layer.below.now ≡ self.old.layer.below.now }
        ensures refused { (e : JudgeFaults) → result ≡ Err e → self.new ≡ self.old }
        ensures meaning { IfOk result (JudgeMeans (S.model self.old.layer.below.now) text.now
            (lent records.new scratch.new out.new)) }
    {
        let source = *self.layer.below();
        let judged = judge_with_ends(source, text, records, scratch, out)?;
        self.query = None;
        Ok(judged.records)
    }
}
