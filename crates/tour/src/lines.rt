// The command lines of the tour.

// Command lines that print a file.
pub(crate) const FILES: &[&str] = &[
    "kavzhubo help",
    "kavzhubo show relearn.mdp",
    "kavzhubo write relearn.mdp",
];

// Command lines that print a ladder.
const LADDERS: &[&str] = &[
    "kavzhubo show ladder:2:4:3",
    "kavzhubo write ladder:2:4:3",
    "kavzhubo write ladder:1:1:1",
];

// Command lines whose file is refused.
const REFUSED: &[&str] = &[
    "kavzhubo show unended.mdp",
    "kavzhubo show word.mdp",
    "kavzhubo show long.mdp",
    "kavzhubo show fields.mdp",
    "kavzhubo show number.mdp",
    "kavzhubo write crlf.mdp",
    "kavzhubo show range.mdp",
    "kavzhubo show labels.mdp",
    "kavzhubo show accent.mdp",
    "kavzhubo show order.mdp",
    "kavzhubo write sum.mdp",
    "kavzhubo show states.mdp",
    "kavzhubo show missing.mdp",
    "kavzhubo show noend.mdp",
];

// Command lines whose ladder is refused.
const REFUSED_LADDERS: &[&str] = &[
    "kavzhubo show ladder:0:4:3",
    "kavzhubo show ladder:2:0:3",
    "kavzhubo write ladder:2:4:5",
];

// Command lines that are wrong.
const WRONG: &[&str] = &[
    "kavzhubo",
    "kavzhubo chart relearn.mdp",
    "kavzhubo show",
    "kavzhubo show relearn.mdp twice",
    "kavzhubo show ladder:2:4",
    "kavzhubo show ladder:2:4:3:1",
    "kavzhubo write ladder:2:04:3",
    "kavzhubo write ladder",
    "kavzhubo show ./ladder:2:4:3",
];

// Command lines that run rounds. In retry.mdp state 0 tries again with 1 part out of 4 or goes to 1, or it takes 1 or 2
// alike; in thirds.mdp it waits with 2 parts out of 3 and else goes to 1.
const ROUNDS: &[&str] = &[
    "kavzhubo rounds retry.mdp down greater 0 0,1000000000,0",
    "kavzhubo rounds retry.mdp down greater 1 0,1000000000,0",
    "kavzhubo rounds retry.mdp down greater 2 0,1000000000,0",
    "kavzhubo rounds retry.mdp up greater 2 0,1000000000,0",
    "kavzhubo rounds retry.mdp down lesser 2 0,1000000000,1",
    "kavzhubo rounds retry.mdp up lesser 2 0,1000000000,1",
    "kavzhubo rounds retry.mdp marks greater 1 0,1,0",
    "kavzhubo rounds retry.mdp marks lesser 1 0,0,1",
    "kavzhubo rounds retry.mdp marks lesser 0 1,0,1",
    "kavzhubo rounds thirds.mdp down lesser 1 0,1000000000",
    "kavzhubo rounds thirds.mdp up lesser 1 0,1000000000",
    "kavzhubo rounds thirds.mdp down greater 2 0,1000000000",
    "kavzhubo rounds thirds.mdp up greater 2 0,1000000000",
    "kavzhubo rounds thirds.mdp down greater 100000 0,1000000000",
    "kavzhubo rounds thirds.mdp up greater 100000 0,1000000000",
    "kavzhubo rounds thirds.mdp marks greater 2 0,1",
    "kavzhubo rounds thirds.mdp marks lesser 2 1,0",
    "kavzhubo rounds ladder:2:4:3 down greater 2 0,0,1000000000",
    "kavzhubo rounds ladder:2:4:3 up lesser 2 0,0,1000000000",
    "kavzhubo rounds relearn.mdp down greater 100000 0,0,0,0,0,0,1000000000",
    "kavzhubo rounds relearn.mdp marks greater 3 0,0,0,0,0,0,1",
];

// Command lines whose rounds are refused, or whose model is: with too few and too many values, with a round too many, with
// a value over the whole, and with several faults.
const REFUSED_ROUNDS: &[&str] = &[
    "kavzhubo rounds retry.mdp down greater 1 0,1000000000",
    "kavzhubo rounds retry.mdp marks greater 1 0,1,0,1",
    "kavzhubo rounds thirds.mdp down greater 100001 0,1000000000",
    "kavzhubo rounds thirds.mdp marks lesser 9999999999 0,1",
    "kavzhubo rounds thirds.mdp up greater 1 0,1000000001",
    "kavzhubo rounds thirds.mdp up greater 1 9999999999,0",
    "kavzhubo rounds ladder:2:4:3 up lesser 100001 0,0",
    "kavzhubo rounds ladder:2:4:3 down greater 100001 0,1000000001",
    "kavzhubo rounds ladder:0:4:3 down greater 100001 0,1000000001",
    "kavzhubo rounds sum.mdp down greater 100001 0,1000000001",
];

// Command lines of rounds that are wrong.
const WRONG_ROUNDS: &[&str] = &[
    "kavzhubo rounds",
    "kavzhubo rounds ladder:2:4:3",
    "kavzhubo rounds ladder:2:4:3 down greater 1",
    "kavzhubo rounds ladder:2:4:3 down greater 1 0,0,0 0",
    "kavzhubo rounds ladder:2:4 up most 01 0,0,x",
    "kavzhubo rounds ladder:2:4:3 even most 01 0,0,x",
    "kavzhubo rounds ladder:2:4:3 down most 01 0,0,x",
    "kavzhubo rounds ladder:2:4:3 down greater 01 0,0,x",
    "kavzhubo rounds ladder:2:4:3 down greater 10000000000 0,0,x",
    "kavzhubo rounds ladder:0:4:3 down greater 1 0,0,x",
    "kavzhubo rounds ladder:2:4:3 down greater 1 0,,0",
    "kavzhubo rounds ladder:2:4:3 up greater 1 0,0,10000000000",
    "kavzhubo rounds ladder:2:4:3 marks greater 1 0,2,0",
    "kavzhubo rounds nowhere.mdp marks greater 1 0,1,0",
];

// Command lines that read a formula.
const FORMULAS: &[&str] = &[
    "kavzhubo formula true",
    "kavzhubo formula '(!p&P<7[Xc])'",
    "kavzhubo formula 'P>0[aU<=10000b]'",
    "kavzhubo formula 'P>=1000000000[(!a&b)UP<=5[Xc]]'",
];

// Command lines whose formula is refused, in the order of the numbers.
const REFUSED_FORMULAS: &[&str] = &[
    "kavzhubo formula ''",
    "kavzhubo formula 'P>=5[a'",
    "kavzhubo formula 'P>05[Xa]'",
    "kavzhubo formula 'a&b'",
    "kavzhubo formula 'P>4294967296[Xa]'",
    "kavzhubo formula 'P>0[aU<=10001b]'",
    "kavzhubo formula '!!!!!!!!!!!!!!!!!!!!!!!!!!!!!!!!a'",
    "kavzhubo formula '(!!!!!!!!!!!!!!!!!!!!!!!!!!!!!!a&(!!!!!!!!!!!!!!!!!!!!!!!!!!!!!b&!c))'",
    "kavzhubo formula 'P>5[XP>5[aUb]]'",
];

// Command lines of formulas that are wrong.
const WRONG_FORMULAS: &[&str] = &["kavzhubo formula", "kavzhubo formula a b"];

// Command lines that make calls on a trial: every call and refused ones between them, states that are held, and a ladder.
const TRIALS: &[&str] = &[
    "kavzhubo trial relearn.mdp relearn.calls",
    "kavzhubo trial retry.mdp retry.calls",
    "kavzhubo trial retry.mdp hold.calls",
    "kavzhubo trial ladder:2:4:3 ladder.calls",
];

// Command lines of trials whose model is refused.
const REFUSED_TRIALS: &[&str] = &[
    "kavzhubo trial sum.mdp retry.calls",
    "kavzhubo trial ladder:0:4:3 nowhere.calls",
];

// Command lines of trials that are wrong, by their words, a file that is not there, or a line of the calls.
const WRONG_TRIALS: &[&str] = &[
    "kavzhubo trial",
    "kavzhubo trial retry.mdp",
    "kavzhubo trial retry.mdp retry.calls twice",
    "kavzhubo trial ladder:2:4 retry.calls",
    "kavzhubo trial nowhere.mdp retry.calls",
    "kavzhubo trial retry.mdp nowhere.calls",
    "kavzhubo trial retry.mdp stop.calls",
    "kavzhubo trial retry.mdp late.calls",
    "kavzhubo trial retry.mdp count.calls",
    "kavzhubo trial retry.mdp retry.mdp",
];

// Command lines that check lists of limits: one whose formulas are all judged, one with refused formulas, and one with a single
// formula, whose progress is not told.
const CHECKS: &[&str] = &[
    "kavzhubo check relearn.mdp relearn.limits",
    "kavzhubo check retry.mdp retry.limits",
    "kavzhubo check ladder:2:4:3 ladder.limits",
];

// Command lines that check a list on a model that is refused.
const REFUSED_CHECKS: &[&str] = &[
    "kavzhubo check sum.mdp retry.limits",
    "kavzhubo check ladder:0:4:3 nowhere.limits",
];

// Command lines of lists of limits that are wrong, by their words or by a file that is not there.
const WRONG_CHECKS: &[&str] = &[
    "kavzhubo check",
    "kavzhubo check retry.mdp",
    "kavzhubo check retry.mdp retry.limits twice",
    "kavzhubo check ladder:2:4 retry.limits",
    "kavzhubo check nowhere.mdp retry.limits",
    "kavzhubo check retry.mdp nowhere.limits",
];

// What the tour plays after the file, in this order: each heading, and the command lines under it.
pub(crate) const SECTIONS: &[(&str, &[&str])] = &[
    ("Ladders.", LADDERS),
    ("Refused files, in the order of the numbers.", REFUSED),
    ("Refused ladders.", REFUSED_LADDERS),
    ("Wrong command lines, and paths of no file.", WRONG),
    ("Rounds.", ROUNDS),
    ("Refused rounds.", REFUSED_ROUNDS),
    ("Wrong command lines of rounds.", WRONG_ROUNDS),
    ("Formulas.", FORMULAS),
    (
        "Refused formulas, in the order of the numbers.",
        REFUSED_FORMULAS,
    ),
    ("Wrong command lines of formulas.", WRONG_FORMULAS),
    ("Trials.", TRIALS),
    ("Trials of refused models.", REFUSED_TRIALS),
    ("Wrong command lines of trials.", WRONG_TRIALS),
    (
        "Lists of limits. The program tells on standard error which formula comes next.",
        CHECKS,
    ),
    ("Lists of limits on refused models.", REFUSED_CHECKS),
    ("Wrong command lines of lists of limits.", WRONG_CHECKS),
];
