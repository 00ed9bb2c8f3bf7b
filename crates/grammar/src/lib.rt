// The grammar of formulas: how they are spelled, and that a text has at most one reading. It may use the model and theory crates.
#![tactic(auto)]

ghost use Rattle.grammar.specs.Spelling.{OneReading};

// A text has at most one reading: a theorem, which the call does nothing but state.
pub fn formulas_have_one_reading()
    ensures { OneReading }
{}
