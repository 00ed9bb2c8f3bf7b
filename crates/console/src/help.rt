ghost use Rattle.std.specs.Prelude.{◌≡◌, map, IfOk, string_bytes};
ghost use Rattle.console.specs.Helps.{help_text, mistake_text, no_file_text, wrong_line_text};
ghost use Rattle.calls_text.specs.Mistakes.{mistake_text as line_text};
ghost use Rattle.console.specs.declared.command.Mistake.TheVariants.{Rounds};

use crate::command::{Mistake, RoundsMistake};
use crate::parse::word_at;
use calls_text::mistake::Mistake as LineMistake;
use std::alloc::{AllocError, Global};

// The page that `help` prints.
pub fn help_text() -> &'static str
    ensures { result.now ≡ help_text }
{
    concat!(
        "kavzhubo shows and writes Markov decision processes, runs rounds on them, reads\n",
        "formulas, replays calls on trials, and checks lists of limits.\n",
        "\n",
        "  kavzhubo show MODEL     print the size of a model and a line for each state\n",
        "  kavzhubo write MODEL    print the text of a model, byte for byte\n",
        "  kavzhubo rounds MODEL RULE PREFERENCE COUNT VALUES\n",
        "                          print the values of the states after rounds\n",
        "  kavzhubo formula TEXT   print the records that a formula is read into\n",
        "  kavzhubo trial MODEL CALLS\n",
        "                          make calls on a trial of a model, print their answers\n",
        "  kavzhubo check MODEL LIMITS\n",
        "                          judge every formula of a list on a model\n",
        "  kavzhubo help           print this page\n",
        "\n",
        "MODEL is the path of a model text, or ladder:RUNGS:DENOMINATOR:WEIGHT for a\n",
        "ladder, as ladder:2:4:3. Write ./ladder:x for a file whose name begins so.\n",
        "\n",
        "In a round each state gets the greatest, or the least, of the mixes of its\n",
        "choices: PREFERENCE is greater or lesser. RULE is down or up for values in parts,\n",
        "1000000000 being the whole, whose mix is the weighted mean, rounded so; or marks\n",
        "for values 0 and 1, whose mix is 1 where a branch leads to a 1. COUNT is 0 to\n",
        "100000. VALUES has a number for each state, parted by commas. The first line has\n",
        "the values after COUNT rounds, the second those after one round less.\n",
        "\n",
        "TEXT is a formula, with no blanks: true, a letter from a to p, !f, (f&g), or P,\n",
        "a comparison (< <= > >=), a bound out of 1000000000 and [Xf], [fUg] or\n",
        "[fU<=STEPSg]. An until without steps stands under >0, <=0 or >=1000000000. Put\n",
        "TEXT in quotes: '(a&P>=500000000[trueU<=10b])'. A record has its number, the\n",
        "number of its kind (0 true, 1 a letter, 2 !, 3 &, 4 X, 5 U<=, 6 U), the records\n",
        "of its parts, its comparison (1 to 4, in the order above), its letter (0 for a)\n",
        "or its bound, and its steps; what it has not is 0.\n",
        "\n",
        "CALLS is the path of a text of calls, a line for each, that are made in turn on a\n",
        "trial of the model. Empty lines and those that begin with # are passed over.\n",
        "\n",
        "  hold STATE              hold a state; such lines come before all others\n",
        "  start AIM LEFT RIGHT    begin a query for left until right; AIM is best or worst,\n",
        "                          LEFT and RIGHT have a digit for each state, 1 for those\n",
        "                          in the set and 0 for the others\n",
        "  advance COUNT           run so many rounds of the query\n",
        "  ends STATE              print its two ends at a state, and its rounds\n",
        "  verdict STATE COMPARISON BOUND\n",
        "                          compare the probability with a bound out of 1000000000\n",
        "  judge FORMULA           judge a formula at every state; this ends the query\n",
        "\n",
        "A call that is refused has its refusal for an answer.\n",
        "\n",
        "LIMITS is the path of a list of formulas, one a line. Empty lines are passed\n",
        "over, and lines that begin with # are printed as headings. For each formula the\n",
        "verdict at every state is printed, and at the end how many hold at every state.\n",
        "Standard error tells which of several formulas comes next. One that is refused\n",
        "does not stop the list, and makes the exit status 1; a no does not.\n",
        "\n",
        "A model text has one record on each line. One tab parts two fields of a line,\n",
        "and a line feed ends each line, the last one too:\n",
        "\n",
        "  mdp STATES DENOMINATOR  comes first; 1 to 512 states, denominator 1 to 1000000\n",
        "  s LABELS                a state, from 0; letters a to p, ascending, or - for none\n",
        "  c                       a choice of the state\n",
        "  b TARGET WEIGHT         a branch of the choice; targets ascend, and the weights\n",
        "                          of a choice add up to the denominator\n",
        "  end                     comes last\n",
        "\n",
        "A text that breaks a rule is refused. The answer then begins with the word\n",
        "refused, the number of the rule and the line, or the place in a formula, from 0;\n",
        "for a wrong field come its number, the word being field 0, and the length of its\n",
        "lawful beginning. A caret stands under the place. The exit status is 0, or 1\n",
        "where something is refused or wrong.\n",
    )
}

// What is said of wrong words after `rounds`. The words stay in `args` here and below, for the reason that `ModelName` has, so
// that what is printed is not told by a mistake alone, and no `Display` of it could be.
fn rounds_mistake_text(
    heap: Global,
    mistake: RoundsMistake,
    args: &[String],
) -> Result<String, AllocError>
    ensures { IfOk result (λ s. string_bytes s ≡ mistake_text (Rounds mistake) (map string_bytes args.now)) }
{
    let (command, rule, preference) = (word_at(args, 0), word_at(args, 2), word_at(args, 3));
    let (count, values) = (word_at(args, 4), word_at(args, 5));
    match mistake {
        RoundsMistake::TooFew => format!(in heap;
            "kavzhubo: there are too few words after {command}; write MODEL RULE PREFERENCE COUNT VALUES, as ladder:2:4:3 down greater 10 0,0,1000000000\n",
        ),
        RoundsMistake::NoRule => format!(in heap;
            "kavzhubo: there is no rule {rule}; write down, up or marks\n",
        ),
        RoundsMistake::NoPreference => format!(in heap;
            "kavzhubo: there is no preference {preference}; write greater or lesser\n",
        ),
        RoundsMistake::NoCount => format!(in heap;
            "kavzhubo: this is no number of rounds: {count}; write 0, or one to ten digits that do not start with 0\n",
        ),
        RoundsMistake::NoValues => format!(in heap;
            "kavzhubo: these are no values: {values}; write numbers parted by commas, each 0, or one to ten digits that do not start with 0\n",
        ),
        RoundsMistake::NoMarks => format!(in heap;
            "kavzhubo: these are no marks: {values}; write 0 for no and 1 for yes, parted by commas\n",
        ),
    }
}

// What is said of a wrong command line. The word of the command is empty where there is none.
pub(crate) fn mistake_text(
    heap: Global,
    mistake: Mistake,
    args: &[String],
) -> Result<String, AllocError>
    ensures { IfOk result (λ s. string_bytes s ≡ mistake_text mistake (map string_bytes args.now)) }
{
    let (command, model) = (word_at(args, 0), word_at(args, 1));
    match mistake {
        Mistake::NoCommand => format!(in heap;
            "kavzhubo: there is no command{command}; kavzhubo help lists the commands\n",
        ),
        Mistake::NoSuchCommand => format!(in heap;
            "kavzhubo: there is no command {command}; kavzhubo help lists the commands\n",
        ),
        Mistake::NoModel => format!(in heap;
            "kavzhubo: which model? Write its path, or ladder:RUNGS:DENOMINATOR:WEIGHT, after {command}\n",
        ),
        Mistake::NoFormula => format!(in heap;
            "kavzhubo: which formula? Write its text after {command}, in quotes, as 'P>=500000000[trueU<=10a]'\n",
        ),
        Mistake::NoCalls => format!(in heap;
            "kavzhubo: which calls? Write the path of their text after {model}\n",
        ),
        Mistake::NoLimits => format!(in heap;
            "kavzhubo: which limits? Write the path of their list after {model}\n",
        ),
        Mistake::TooMany => format!(in heap;
            "kavzhubo: there are too many words after {command}; kavzhubo help says what may follow it\n",
        ),
        Mistake::NoLadder => format!(in heap;
            "kavzhubo: this names no ladder: {model}; write ladder:RUNGS:DENOMINATOR:WEIGHT with three numbers of one to seven digits, as ladder:2:4:3\n",
        ),
        Mistake::Rounds(mistake) => rounds_mistake_text(heap, mistake, args),
    }
}

// What is said where no file can be read at a path.
pub(crate) fn no_file_text(heap: Global, path: &str) -> Result<String, AllocError>
    ensures { IfOk result (λ s. string_bytes s ≡ no_file_text path.now) }
{
    format!(in heap;
        "kavzhubo: no file can be read at {path}; see that it is there, that it is a file and that you may read it\n",
    )
}

// What is said of a line of a file that is wrong.
pub(crate) fn wrong_line_text(
    heap: Global,
    path: &str,
    mistake: LineMistake,
) -> Result<String, AllocError>
    ensures { IfOk result (λ s. string_bytes s ≡ wrong_line_text path.now (line_text mistake)) }
{
    format!(in heap; "kavzhubo: {path}, {mistake}\n")
}
