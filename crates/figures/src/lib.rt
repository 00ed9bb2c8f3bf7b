// Figures worked out by hand on three small models, proved from the definitions that the calls of a trial cite.
// It may use the crates model, theory, text, text_laws, ladder, layers, rules, rounds, records, grammar, formula and trial.
#![tactic(auto)]

ghost use Rattle.figures.specs.Figures.{Figures};

// All the figures are so. Its contract is the statement, and it does nothing.
pub fn figures()
    ensures { Figures }
{}
