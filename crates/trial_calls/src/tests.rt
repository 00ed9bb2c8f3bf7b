use crate::calls::Question;
use pairs::models::{RETRY, THIRDS, table};
use records::comparison::Comparison;
use std::test::Fail;
use trial::aim::Aim;
use trial::fault::TrialFault;
use trial::trial::Trial;
use trial::verdict::Verdict;

const WHOLE: u64 = 1_000_000_000;

// What state 0 of RETRY answers after two rounds towards state 1.
fn retried(
    rt: &HostRuntime,
    left: &[u8],
    aim: Aim,
    comparison: Comparison,
    bound: u64,
) -> Result<(u32, u32, u64, Verdict), Fail> {
    let source = table(rt.alloc(), RETRY)?;
    let question = Question {
        left,
        right: &[0, 1, 0],
        aim,
        counts: [1, 1],
        state: 0,
        comparison,
        bound,
    };
    let answer = question.ask(&source)?;
    Ok((
        answer.lower.units(),
        answer.upper.units(),
        answer.rounds,
        answer.verdict,
    ))
}

#[test]
fn best_of_retries(rt: HostRuntime) -> Result<(), Fail> {
    let best = 937_500_000;
    for (comparison, bound, verdict) in [
        (Comparison::AtMost, 937_500_000, Verdict::Yes),
        (Comparison::AtMost, 937_499_999, Verdict::No),
        (Comparison::Below, 937_500_001, Verdict::Yes),
        (Comparison::Below, 937_500_000, Verdict::No),
    ] {
        let answer = retried(&rt, &[1, 1, 1], Aim::Best, comparison, bound)?;
        assert_eq!(rt; answer, (best, best, 2, verdict));
    }
    Ok(())
}

#[test]
fn worst_of_retries(rt: HostRuntime) -> Result<(), Fail> {
    let worst = 500_000_000;
    for (comparison, bound, verdict) in [
        (Comparison::AtLeast, 500_000_000, Verdict::Yes),
        (Comparison::AtLeast, 500_000_001, Verdict::No),
        (Comparison::Above, 499_999_999, Verdict::Yes),
        (Comparison::Above, 500_000_000, Verdict::No),
    ] {
        let answer = retried(&rt, &[1, 0, 0], Aim::Worst, comparison, bound)?;
        assert_eq!(rt; answer, (worst, worst, 2, verdict));
    }
    Ok(())
}

// An until fails where neither of its sets is.
#[test]
fn outside_left(rt: HostRuntime) -> Result<(), Fail> {
    let answer = retried(&rt, &[0, 1, 1], Aim::Best, Comparison::AtMost, 0)?;
    assert_eq!(rt; answer, (0, 0, 2, Verdict::Yes));
    Ok(())
}

#[test]
fn thirds_are_undecided(rt: HostRuntime) -> Result<(), Fail> {
    let source = table(rt.alloc(), THIRDS)?;
    for (bound, verdict) in [
        (555_555_554, Verdict::No),
        (555_555_555, Verdict::Undecided),
        (555_555_556, Verdict::Yes),
    ] {
        let question = Question {
            left: &[1, 1],
            right: &[0, 1],
            aim: Aim::Best,
            counts: [0, 2],
            state: 0,
            comparison: Comparison::AtMost,
            bound,
        };
        let answer = question.ask(&source)?;
        assert_eq!(rt; answer.lower.units(), 555_555_555);
        assert_eq!(rt; answer.upper.units(), 555_555_556);
        assert_eq!(rt; answer.verdict, verdict);
    }
    Ok(())
}

// A question on THIRDS that is answered.
const ANSWERED: Question<'static> = Question {
    left: &[1, 0],
    right: &[0, 1],
    aim: Aim::Best,
    counts: [1, 1],
    state: 0,
    comparison: Comparison::Below,
    bound: 0,
};

// The number that a question on THIRDS is refused with, or 0, the value expected where nothing is refused.
fn refusal(rt: &HostRuntime, question: Question<'_>) -> Result<u8, Fail> {
    let source = table(rt.alloc(), THIRDS)?;
    match question.ask(&source) {
        Ok(_) => Ok(0),
        Err(fault) => Ok(fault.number()),
    }
}

#[test]
fn edges_of_marks(rt: HostRuntime) -> Result<(), Fail> {
    for (left, right, number) in [
        (&[1, 0][..], &[0, 1][..], 0),
        (&[1][..], &[0, 1][..], 30),
        (&[1, 0][..], &[0, 1, 0][..], 30),
        (&[2, 0][..], &[0][..], 30),
        (&[2, 0][..], &[0, 1][..], 31),
        (&[1, 0][..], &[0, 255][..], 31),
    ] {
        let question = Question {
            left,
            right,
            ..ANSWERED
        };
        assert_eq!(rt; refusal(&rt, question)?, number);
    }
    Ok(())
}

#[test]
fn edges_of_queries(rt: HostRuntime) -> Result<(), Fail> {
    for (count, state, comparison, bound, number) in [
        (99_999, 1, Comparison::Below, WHOLE, 0),
        (100_000, 0, Comparison::Below, 0, 33),
        (u64::MAX, 2, Comparison::Below, 0, 33),
        (1, 2, Comparison::Below, WHOLE + 1, 34),
        (1, 1, Comparison::Above, WHOLE + 1, 35),
        (1, 1, Comparison::Above, WHOLE, 36),
        (1, 1, Comparison::AtLeast, 0, 36),
    ] {
        let question = Question {
            left: &[1, 1],
            counts: [1, count],
            state,
            comparison,
            bound,
            ..ANSWERED
        };
        assert_eq!(rt; refusal(&rt, question)?, number);
    }
    Ok(())
}

#[test]
fn no_query(rt: HostRuntime) -> Result<(), Fail> {
    let source = table(rt.alloc(), THIRDS)?;
    let mut trial = Trial::over(&source);
    assert_eq!(rt; trial.advance(0), Err(TrialFault::NoQuery));
    assert_eq!(rt;
        trial.verdict(5, Comparison::Above, WHOLE + 1),
        Err(TrialFault::NoQuery)
    );
    assert_eq!(rt;
        trial.start(&[1], &[0, 1], Aim::Best),
        Err(TrialFault::Lengths)
    );
    assert_eq!(rt; trial.advance(1), Err(TrialFault::NoQuery));
    Ok(())
}
