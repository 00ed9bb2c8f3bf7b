ghost use Rattle.std.specs.Prelude.{◌≡◌};
ghost use Rattle.console.specs.declared.command.Mistake.TheVariants.{Rounds};

use rounds_text::request::Request;

// In which form a model is printed: as a listing to read, or as model text.
#[derive(Clone, Copy, PartialEq, Eq, Debug)]
pub enum Form {
    Listing,
    Text,
}

// A command of the program: `help`, one that prints a model, `show` as a listing and `write` as model text, `rounds`,
// `formula`, `trial`, or `check`.
#[derive(Clone, Copy, PartialEq, Eq, Debug)]
pub enum Verb {
    Help,
    Print(Form),
    Rounds,
    Formula,
    Trial,
    Check,
}

// The three numbers that name a ladder.
#[derive(Clone, Copy, PartialEq, Eq, Debug)]
pub struct LadderNumbers {
    pub rungs: usize,
    pub denominator: u32,
    pub weight: u32,
}

// How a model is named: by the path of its file, or as a ladder by its three numbers. The path itself stays among the
// words of the command line: a clause sees a reference as more than the bytes behind it, and so could not say of a name
// that holds one that it equals the name that a definition gives.
#[derive(Clone, Copy, PartialEq, Eq, Debug)]
pub enum ModelName {
    File,
    Ladder(LadderNumbers),
}

// What is wrong with the words after `rounds`.
#[derive(Clone, Copy, PartialEq, Eq, Debug)]
pub enum RoundsMistake {
    TooFew,
    NoRule,
    NoPreference,
    NoCount,
    NoValues,
    NoMarks,
}

// What is wrong with the words of the command line. The wrong word stays among them, for the reason that `ModelName` has.
#[derive(Clone, Copy, PartialEq, Eq, Debug)]
pub enum Mistake {
    NoCommand,
    NoSuchCommand,
    NoModel,
    NoFormula,
    NoCalls,
    NoLimits,
    TooMany,
    NoLadder,
    Rounds(RoundsMistake),
}

// A mistake in the words after `rounds` is one of the command line.
impl From<RoundsMistake> for Mistake {
    ghost from_gives = { λ e m. m ≡ Rounds e };

    fn from(e: RoundsMistake) -> Mistake {
        Mistake::Rounds(e)
    }
}

// What the words of the command line ask for. The values of rounds stay among them, too, since they want memory, and so does
// the text of a formula, for the reason that `ModelName` has.
#[derive(Clone, Copy, PartialEq, Eq, Debug)]
pub enum Command {
    Help,
    Print(Form, ModelName),
    Rounds(ModelName, Request),
    Formula,
    Trial(ModelName),
    Check(ModelName),
}
