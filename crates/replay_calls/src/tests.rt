use crate::script::{Judgement, Script};
use layers::hold::Hold;
use model::source::Source;
use pairs::models::{THIRDS, table};
use pairs::rule::Pairs;
use records::comparison::Comparison;
use records::fault::{FormulaFault, JudgeFault};
use records::record::{BLANK, Kind, Record};
use replay::replay::replay;
use ring::ring::Ring;
use rounds::run::rounds;
use rules::part::Part;
use std::process::Abort;
use std::test::Fail;
use trial::aim::Aim;
use trial::fault::TrialFault;
use trial::verdict::Verdict;

const WHOLE: u32 = 1_000_000_000;

// Undecided at state 0 of THIRDS, where the best adversary has one third: its ends lie on both sides of the bound.
const THIRD: &[u8] = b"P<=333333333[trueU<=1a]";

// Two negations over an "and" of two chains with 31 state formulas each: 65 in all.
const FORMULAS_65: &[u8] =
    b"!!((a&(a&(a&(a&(a&(a&(a&(a&(a&(a&(a&(a&(a&(a&(a&a)))))))))))))))&(a&(a&(a&(a&(a&(a&(a&(a&(a&(a&(a&(a&(a&(a&(a&a))))))))))))))))";

// What the lent records are before a judge: like no record that is judged, so a change is seen. The cases of the formula reader
// have the same: it is a value for tests, and there is no crate of tests that both use.
const BEFORE: Record = Record {
    kind: Kind::Until,
    first: 77,
    second: 77,
    comparison: None,
    number: 77,
    steps: 77,
    yes: 77,
    undecided: 77,
};

// A record of kind and counts alone.
const PLAIN: Record = Record { yes: 2, ..BLANK };

// The records of THIRD on THIRDS, with one behind them that is not used.
const JUDGED: [Record; 4] = [
    PLAIN,
    Record {
        kind: Kind::Label,
        yes: 1,
        ..PLAIN
    },
    Record {
        kind: Kind::UntilWithin,
        first: 0,
        second: 1,
        comparison: Some(Comparison::AtMost),
        number: 333_333_333,
        steps: 1,
        yes: 0,
        undecided: 1,
    },
    BEFORE,
];

// A judge of THIRD with room for one record and two bytes more than it needs.
const ROOMY: Judgement<'static> = Judgement {
    text: THIRD,
    records: &[BEFORE; 4],
    scratch: &[9; 8],
    out: &[9, 9],
    answer: None,
};

// The same, judged: what it does not use is as it was.
const ROOMY_JUDGED: Judgement<'static> = Judgement {
    text: THIRD,
    records: &JUDGED,
    scratch: &[1, 1, 0, 1, 2, 0, 9, 9],
    out: &[2, 0],
    answer: Some(Ok(3)),
};

// Plays the calls on a source, and compares them with those wanted.
fn play<S: Source>(rt: &impl Abort, source: &S, mut script: Script) {
    replay(source, script.given.as_mut_slice());
    assert_eq!(rt; script.given, script.wanted);
}

// Plays the calls on THIRDS.
fn play_on_thirds(rt: &impl Abort, script: Script) -> Result<(), Fail> {
    let source = table(script.heap, THIRDS)?;
    play(rt, &source, script);
    Ok(())
}

// Ends of so many units, after so many rounds.
fn told(lower: u32, upper: u32, rounds: u64) -> Result<(Part, Part, u64), Fail> {
    Ok((Part::try_from(lower)?, Part::try_from(upper)?, rounds))
}

#[test]
fn refused_between_accepted(rt: HostRuntime) -> Result<(), Fail> {
    let mut script = Script::new(rt.alloc());
    script.ends(0, Err(TrialFault::NoQuery))?;
    script.start(&[1], &[0, 1], Aim::Best, Err(TrialFault::Lengths))?;
    script.advance(1, Err(TrialFault::NoQuery))?;
    script.start(&[1, 1], &[0, 1], Aim::Best, Ok(()))?;
    script.start(&[1, 1], &[0, 2], Aim::Worst, Err(TrialFault::Marks))?;
    script.advance(1, Ok(()))?;
    script.advance(100_000, Err(TrialFault::Rounds))?;
    script.ends(0, Ok(told(333_333_333, 333_333_334, 1)?))?;
    script.ends(2, Err(TrialFault::State))?;
    script.advance(1, Ok(()))?;
    script.verdict(0, Comparison::AtMost, 555_555_555, Ok(Verdict::Undecided))?;
    script.verdict(0, Comparison::Above, 0, Err(TrialFault::Aim))?;
    script.verdict(
        0,
        Comparison::Below,
        u64::from(WHOLE) + 1,
        Err(TrialFault::Bound),
    )?;
    script.ends(1, Ok(told(WHOLE, WHOLE, 2)?))?;
    play_on_thirds(&rt, script)
}

#[test]
fn start_over_a_standing_query(rt: HostRuntime) -> Result<(), Fail> {
    let mut script = Script::new(rt.alloc());
    script.start(&[1, 1], &[0, 1], Aim::Best, Ok(()))?;
    script.advance(2, Ok(()))?;
    script.start(&[1, 0], &[0, 1], Aim::Worst, Ok(()))?;
    script.ends(0, Ok(told(0, 0, 0)?))?;
    script.advance(1, Ok(()))?;
    script.ends(0, Ok(told(333_333_333, 333_333_334, 1)?))?;
    script.verdict(0, Comparison::AtLeast, 333_333_334, Ok(Verdict::Undecided))?;
    script.verdict(0, Comparison::AtLeast, 333_333_335, Ok(Verdict::No))?;
    play_on_thirds(&rt, script)
}

#[test]
fn judges_accepted_and_refused(rt: HostRuntime) -> Result<(), Fail> {
    let mut script = Script::new(rt.alloc());
    script.start(&[1, 1], &[0, 1], Aim::Best, Ok(()))?;
    script.advance(1, Ok(()))?;
    for (text, records, scratch, out, fault) in [
        (
            &b""[..],
            &[BEFORE; 3][..],
            &[9; 6][..],
            &[9; 2][..],
            JudgeFault::Length,
        ),
        (
            &b"aa"[..],
            &[BEFORE; 3][..],
            &[9; 6][..],
            &[9; 2][..],
            JudgeFault::Formula(FormulaFault::NoFormula { place: 1 }),
        ),
        (
            THIRD,
            &[BEFORE; 2][..],
            &[9; 6][..],
            &[9; 2][..],
            JudgeFault::Formula(FormulaFault::Records),
        ),
        (
            THIRD,
            &[BEFORE; 3][..],
            &[9; 5][..],
            &[9; 3][..],
            JudgeFault::Scratch,
        ),
        (
            THIRD,
            &[BEFORE; 3][..],
            &[9; 6][..],
            &[9; 1][..],
            JudgeFault::Out,
        ),
        (
            THIRD,
            &[BEFORE; 3][..],
            &[9; 6][..],
            &[9; 3][..],
            JudgeFault::Out,
        ),
    ] {
        let given = Judgement {
            text,
            records,
            scratch,
            out,
            answer: None,
        };
        let wanted = Judgement {
            answer: Some(Err(fault)),
            ..given
        };
        script.judge(given, wanted)?;
    }
    script.ends(0, Ok(told(333_333_333, 333_333_334, 1)?))?;
    script.judge(ROOMY, ROOMY_JUDGED)?;
    script.ends(0, Err(TrialFault::NoQuery))?;
    script.verdict(0, Comparison::Below, 0, Err(TrialFault::NoQuery))?;
    script.advance(0, Err(TrialFault::NoQuery))?;
    script.judge(ROOMY, ROOMY_JUDGED)?;
    script.start(&[1, 1], &[0, 1], Aim::Best, Ok(()))?;
    script.ends(1, Ok(told(WHOLE, WHOLE, 0)?))?;
    play_on_thirds(&rt, script)
}

// Refused for its text, a judge leaves every buffer, however much is lent: 66 records are no help to 65 formulas.
#[test]
fn judges_refused_by_their_texts(rt: HostRuntime) -> Result<(), Fail> {
    let mut script = Script::new(rt.alloc());
    for (text, fault) in [
        (&b"P>1000000001[Xa]"[..], FormulaFault::Number { place: 2 }),
        (&b"P>0[aU<=10001a]"[..], FormulaFault::Number { place: 8 }),
        (
            &b"!!!!!!!!!!!!!!!!!!!!!!!!!!!!!!!!a"[..],
            FormulaFault::Depth,
        ),
        (FORMULAS_65, FormulaFault::Records),
        (&b"P>0[XP>5[aUa]]"[..], FormulaFault::Until { place: 5 }),
    ] {
        let given = Judgement {
            text,
            records: &[BEFORE; 66],
            scratch: &[9; 140],
            out: &[9; 2],
            answer: None,
        };
        let wanted = Judgement {
            answer: Some(Err(JudgeFault::Formula(fault))),
            ..given
        };
        script.judge(given, wanted)?;
    }
    play_on_thirds(&rt, script)
}

// Numbers that no text of calls can write: each is refused by its own question, and the query stands as it stood.
#[test]
fn largest_numbers(rt: HostRuntime) -> Result<(), Fail> {
    let mut script = Script::new(rt.alloc());
    script.advance(u64::MAX, Err(TrialFault::NoQuery))?;
    script.ends(usize::MAX, Err(TrialFault::NoQuery))?;
    script.start(&[1, 1], &[0, 255], Aim::Best, Err(TrialFault::Marks))?;
    script.start(&[1, 1], &[0, 1], Aim::Best, Ok(()))?;
    script.advance(1, Ok(()))?;
    script.advance(u64::MAX, Err(TrialFault::Rounds))?;
    script.ends(usize::MAX, Err(TrialFault::State))?;
    script.verdict(
        usize::MAX,
        Comparison::Above,
        u64::MAX,
        Err(TrialFault::State),
    )?;
    script.verdict(1, Comparison::Above, u64::MAX, Err(TrialFault::Bound))?;
    script.verdict(1, Comparison::Above, u64::from(WHOLE), Err(TrialFault::Aim))?;
    script.verdict(1, Comparison::AtMost, u64::from(WHOLE), Ok(Verdict::Yes))?;
    script.ends(0, Ok(told(333_333_333, 333_333_334, 1)?))?;
    play_on_thirds(&rt, script)
}

// A ring of three states, on with 4 parts out of 10, with state 2 held below and state 0 above: a source of one's own under two layers.
fn held_ring() -> Result<Hold<Hold<Ring>>, Fail> {
    let mut lower = Hold::over(Ring {
        states: 3,
        denominator: 10,
        weight: 4,
    });
    lower.hold(2)?;
    let mut pile = Hold::over(lower);
    pile.hold(0)?;
    Ok(pile)
}

// Rounds of a rule of one's own over it: state 1 gets the lesser pair of its own and of state 2, and the held states keep theirs.
#[test]
fn pairs_under_two_layers(rt: HostRuntime) -> Result<(), Fail> {
    let mut values = [(3, 0), (2, 1), (1, 5)];
    let mut spare = [(9, 9); 3];
    rounds(&held_ring()?, &Pairs, &mut values, &mut spare, 1)?;
    assert_eq!(rt; values, [(3, 0), (1, 5), (1, 5)]);
    assert_eq!(rt; spare, [(3, 0), (2, 1), (1, 5)]);
    Ok(())
}

#[test]
fn ring_under_two_layers(rt: HostRuntime) -> Result<(), Fail> {
    let pile = held_ring()?;
    let mut script = Script::new(rt.alloc());
    script.start(&[1, 1, 1], &[0, 0, 1], Aim::Worst, Ok(()))?;
    script.advance(2, Ok(()))?;
    script.ends(0, Ok(told(0, 0, 2)?))?;
    script.ends(1, Ok(told(640_000_000, 640_000_000, 2)?))?;
    script.ends(2, Ok(told(WHOLE, WHOLE, 2)?))?;
    script.judge(
        Judgement {
            text: b"true",
            records: &[BEFORE],
            scratch: &[9; 3],
            out: &[9; 3],
            answer: None,
        },
        Judgement {
            text: b"true",
            records: &[Record { yes: 3, ..PLAIN }],
            scratch: &[1; 3],
            out: &[1; 3],
            answer: Some(Ok(1)),
        },
    )?;
    script.ends(1, Err(TrialFault::NoQuery))?;
    play(&rt, &pile, script);
    Ok(())
}
