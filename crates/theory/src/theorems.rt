ghost use Rattle.theory.specs.Adversaries.{AnAdversaryExists};
ghost use Rattle.theory.specs.Tallies.{RunsCorrect};
ghost use Rattle.theory.specs.Rounds.{RoundsOptimal};
ghost use Rattle.theory.specs.Mixes.{RulesLawful};
ghost use Rattle.theory.specs.Ends.{EndsBound, NextEndsBound};
ghost use Rattle.theory.specs.WithoutSteps.{MarksDecide};
ghost use Rattle.theory.specs.Formulas.{OneSet};
ghost use Rattle.theory.specs.Verdicts.{OneVerdict, VerdictsCorrect};
ghost use Rattle.theory.specs.Found.{AllJudgedRightly, FormulaEndsBound};
ghost use Rattle.theory.specs.Distances.{UntilNear, NextNear, WithoutStepsDecided, QueriesCorrect};

// a lawful model has an allowed adversary
pub fn an_adversary_exists()
    ensures { AnAdversaryExists }
{}

// the runs are the paths that follow the adversary, each exactly once, and their weights sum to D ^ k
pub fn runs_are_paths()
    ensures { RunsCorrect }
{}

// for every lawful rule, rounds give each state the optimum over all adversaries
pub fn rounds_are_optimal<V>()
    ensures { RoundsOptimal V }
{}

// parts rounded down, parts rounded up and marks keep the laws of a rule
pub fn rules_are_lawful()
    ensures { RulesLawful }
{}

// the two ends of a query bound every adversary, one reaches the near end, and the gap is at most the number of rounds
pub fn ends_bound_all()
    ensures { EndsBound }
{}

// so do the two ends of a next, with a gap of at most one unit
pub fn next_ends_bound_all()
    ensures { NextEndsBound }
{}

// marks settle within as many rounds as there are states, and then decide the untils without steps
pub fn marks_decide_untils()
    ensures { MarksDecide }
{}

// every formula has exactly one set of states
pub fn formulas_have_one_set()
    ensures { OneSet }
{}

// every formula has verdicts, and on the states only one
pub fn formulas_have_one_verdict()
    ensures { OneVerdict }
{}

// every yes and no on a formula is true
pub fn verdicts_are_correct()
    ensures { VerdictsCorrect }
{}

// an undecided until with k steps over decided parts lies within k units of its bound
pub fn undecided_untils_are_near()
    ensures { UntilNear }
{}

// an undecided next over a decided part lies within one unit of its bound
pub fn undecided_nexts_are_near()
    ensures { NextNear }
{}

// an until without steps over decided parts is decided
pub fn untils_without_steps_are_decided()
    ensures { WithoutStepsDecided }
{}

// the verdicts of one query are true, and an undecided state lies within k units of the bound
pub fn queries_are_correct()
    ensures { QueriesCorrect }
{}

// every formula is judged rightly: what rounds and marks find are its only verdicts, a yes holds, a no fails, and an undecided state is near its bound
pub fn formulas_are_judged_rightly()
    ensures { AllJudgedRightly }
{}

// the two ends that a formula's verdicts are read off bound every adversary, over the sets of states of its parts
pub fn formula_ends_bound_all()
    ensures { FormulaEndsBound }
{}
