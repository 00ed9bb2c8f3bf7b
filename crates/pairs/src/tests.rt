use crate::models::{RETRY, THIRDS, table};
use crate::rule::Pairs;
use ladder::ladder::Ladder;
use rounds::fault::RoundsFault;
use rounds::interval::Interval;
use rounds::run::{rounds, rounds_of_ends};
use rounds::settle::settle;
use rules::fault::PartFault;
use rules::marks::Marks;
use rules::part::Part;
use rules::parts::Parts;
use rules::preference::Preference;
use rules::rounding::Rounding;
use std::process::Abort;
use std::test::Fail;

// Two states that change places.
const SWAP: &[u8] = b"mdp\t2\t1\ns\t-\nc\nb\t1\t1\ns\t-\nc\nb\t0\t1\nend\n";

const WHOLE: u32 = 1_000_000_000;

// Parts of these units.
fn three(units: [u32; 3]) -> Result<[Part; 3], Fail> {
    Ok(units.try_map(Part::try_from)?)
}

// The units of these parts.
fn units(parts: [Part; 3]) -> [u32; 3] {
    parts.map(Part::units)
}

#[test]
fn greater_parts_of_retries(rt: HostRuntime) -> Result<(), Fail> {
    let source = table(rt.alloc(), RETRY)?;
    let rule = Parts {
        rounding: Rounding::Down,
        preference: Preference::Greater,
    };
    let mut values = three([0, WHOLE, 0])?;
    let mut spare = three([7, 7, 7])?;
    rounds(&source, &rule, &mut values, &mut spare, 0)?;
    assert_eq!(rt; units(values), [0, WHOLE, 0]);
    assert_eq!(rt; units(spare), [7, 7, 7]);
    rounds(&source, &rule, &mut values, &mut spare, 1)?;
    assert_eq!(rt; units(values), [750_000_000, WHOLE, 0]);
    assert_eq!(rt; units(spare), [0, WHOLE, 0]);
    let mut again = three([0, WHOLE, 0])?;
    rounds(&source, &rule, &mut again, &mut spare, 2)?;
    assert_eq!(rt; units(again), [937_500_000, WHOLE, 0]);
    assert_eq!(rt; units(spare), [750_000_000, WHOLE, 0]);
    Ok(())
}

#[test]
fn lesser_parts_of_retries(rt: HostRuntime) -> Result<(), Fail> {
    let source = table(rt.alloc(), RETRY)?;
    let rule = Parts {
        rounding: Rounding::Up,
        preference: Preference::Lesser,
    };
    let mut values = three([0, WHOLE, 0])?;
    let mut spare = three([0, 0, 0])?;
    rounds(&source, &rule, &mut values, &mut spare, 2)?;
    assert_eq!(rt; units(values), [500_000_000, WHOLE, 0]);
    assert_eq!(rt; units(spare), [500_000_000, WHOLE, 0]);
    Ok(())
}

// The units of state 0 of THIRDS after so many rounds, rounded down and rounded up.
fn thirds(rt: &HostRuntime, count: u64) -> Result<(u32, u32), Fail> {
    let source = table(rt.alloc(), THIRDS)?;
    let down = Parts {
        rounding: Rounding::Down,
        preference: Preference::Lesser,
    };
    let up = Parts {
        rounding: Rounding::Up,
        preference: Preference::Greater,
    };
    let start = [Part::try_from(0)?, Part::try_from(WHOLE)?];
    let mut lower = start;
    let mut upper = start;
    let mut spare = start;
    rounds(&source, &down, &mut lower, &mut spare, count)?;
    rounds(&source, &up, &mut upper, &mut spare, count)?;
    Ok((lower[0].units(), upper[0].units()))
}

#[test]
fn thirds_are_rounded(rt: HostRuntime) -> Result<(), Fail> {
    assert_eq!(rt; thirds(&rt, 1)?, (333_333_333, 333_333_334));
    assert_eq!(rt; thirds(&rt, 2)?, (555_555_555, 555_555_556));
    assert_eq!(rt; thirds(&rt, 100_000)?, (999_999_998, WHOLE));
    Ok(())
}

// The interval between so many units.
fn interval(ends: (u32, u32)) -> Result<Interval, PartFault> {
    Ok(Interval {
        lower: Part::try_from(ends.0)?,
        upper: Part::try_from(ends.1)?,
    })
}

// Those of three states.
fn both(ends: [(u32, u32); 3]) -> Result<[Interval; 3], Fail> {
    Ok(ends.try_map(interval)?)
}

// The best lower and the best upper mix of state 0 are those of different choices.
#[test]
fn each_end_has_its_own_choice(rt: HostRuntime) -> Result<(), Fail> {
    let source = table(rt.alloc(), RETRY)?;
    let start = both([(100, 100), (100, 110), (20, 200)])?;
    let mut ends = start;
    let mut spare = start;
    rounds_of_ends(&source, Preference::Greater, &mut ends, &mut spare, 1)?;
    assert_eq!(rt; ends, both([(100, 155), (100, 110), (20, 200)])?);
    assert_eq!(rt; spare, start);
    let mut ends = start;
    rounds_of_ends(&source, Preference::Lesser, &mut ends, &mut spare, 1)?;
    assert_eq!(rt; ends, both([(60, 108), (100, 110), (20, 200)])?);
    Ok(())
}

#[test]
fn refused_rounds_of_ends_leave_both_lists(rt: HostRuntime) -> Result<(), Fail> {
    let source = table(rt.alloc(), RETRY)?;
    let start = both([(0, 0), (WHOLE, WHOLE), (0, 0)])?;
    let before = both([(7, 8), (7, 8), (7, 8)])?;
    let mut ends = start;
    let mut spare = before;
    assert_eq!(rt;
        rounds_of_ends(&source, Preference::Greater, &mut ends[..2], &mut spare, 1),
        Err(RoundsFault::Lengths)
    );
    assert_eq!(rt;
        rounds_of_ends(&source, Preference::Greater, &mut ends, &mut spare, 100_001),
        Err(RoundsFault::Count)
    );
    assert_eq!(rt; ends, start);
    assert_eq!(rt; spare, before);
    rounds_of_ends(&source, Preference::Greater, &mut ends, &mut spare, 0)?;
    assert_eq!(rt; ends, start);
    assert_eq!(rt; spare, before);
    Ok(())
}

// The marks of RETRY after a round from these.
fn marked(rt: &HostRuntime, preference: Preference, start: [bool; 3]) -> Result<[bool; 3], Fail> {
    let source = table(rt.alloc(), RETRY)?;
    let mut marks = start;
    let mut spare = start;
    rounds(&source, &Marks { preference }, &mut marks, &mut spare, 1)?;
    Ok(marks)
}

#[test]
fn marks_of_retries(rt: HostRuntime) -> Result<(), Fail> {
    let a = [false, true, false];
    let b = [false, false, true];
    assert_eq!(rt; marked(&rt, Preference::Greater, a)?, [true, true, false]);
    assert_eq!(rt; marked(&rt, Preference::Lesser, a)?, [true, true, false]);
    assert_eq!(rt; marked(&rt, Preference::Greater, b)?, [true, false, true]);
    assert_eq!(rt; marked(&rt, Preference::Lesser, b)?, [false, false, true]);
    Ok(())
}

#[test]
fn marks_settle_on_a_ladder(rt: HostRuntime) -> Result<(), Fail> {
    let source = Ladder::new(3, 4, 3)?;
    let greater = Marks {
        preference: Preference::Greater,
    };
    let lesser = Marks {
        preference: Preference::Lesser,
    };
    let mut marks = [false, false, false, true];
    let mut spare = [false; 4];
    assert_eq!(rt; settle(&source, &lesser, &mut marks, &mut spare)?, Some(1));
    assert_eq!(rt; marks, [false, false, false, true]);
    assert_eq!(rt; settle(&source, &greater, &mut marks, &mut spare)?, Some(4));
    assert_eq!(rt; marks, [true; 4]);
    assert_eq!(rt; settle(&source, &greater, &mut marks, &mut spare)?, Some(1));
    assert_eq!(rt;
        settle(&source, &greater, &mut marks, &mut [true; 3]),
        Err(RoundsFault::Lengths)
    );
    Ok(())
}

#[test]
fn marks_that_never_settle(rt: HostRuntime) -> Result<(), Fail> {
    let source = table(rt.alloc(), SWAP)?;
    let rule = Marks {
        preference: Preference::Greater,
    };
    let mut marks = [true, false];
    let mut spare = [false; 2];
    assert_eq!(rt; settle(&source, &rule, &mut marks, &mut spare)?, None);
    assert_eq!(rt; marks, [false, true]);
    assert_eq!(rt; spare, [true, false]);
    Ok(())
}

// The number that rounds with lists of these lengths are refused with, or 0, the value expected where nothing is refused.
fn refusal(rt: &impl Abort, first: usize, second: usize, count: u64) -> Result<u8, Fail> {
    let source = Ladder::new(3, 4, 3)?;
    let rule = Marks {
        preference: Preference::Greater,
    };
    let mut marks = [false; 5];
    let mut spare = [true; 5];
    let answer = rounds(
        &source,
        &rule,
        &mut marks[..first.min(5)],
        &mut spare[..second.min(5)],
        count,
    );
    match answer {
        Ok(()) => Ok(0),
        Err(fault) => {
            assert_eq!(rt; marks, [false; 5]);
            assert_eq!(rt; spare, [true; 5]);
            Ok(fault.number())
        }
    }
}

#[test]
fn edges_of_rounds(rt: HostRuntime) -> Result<(), Fail> {
    for (first, second, count, number) in [
        (4, 4, 0, 0),
        (4, 4, 100_000, 0),
        (3, 4, 1, 37),
        (5, 4, 1, 37),
        (4, 3, 1, 37),
        (4, 5, 1, 37),
        (3, 3, 100_001, 37),
        (4, 4, 100_001, 38),
        (4, 4, u64::MAX, 38),
    ] {
        assert_eq!(rt; refusal(&rt, first, second, count)?, number);
    }
    Ok(())
}

// The number that a part of so many units is refused with, or 0, the value expected where nothing is refused.
fn part_refusal(units: u32) -> u8 {
    match Part::try_from(units) {
        Ok(_) => 0,
        Err(fault) => fault.number(),
    }
}

#[test]
fn edges_of_parts(rt: HostRuntime) {
    assert_eq!(rt; part_refusal(0), 0);
    assert_eq!(rt; part_refusal(WHOLE), 0);
    assert_eq!(rt; part_refusal(WHOLE + 1), 39);
    assert_eq!(rt; part_refusal(u32::MAX), 39);
    assert_eq!(rt; PartFault::Units.number(), 39);
}

#[test]
fn pairs_of_retries(rt: HostRuntime) -> Result<(), Fail> {
    let source = table(rt.alloc(), RETRY)?;
    let mut values = [(0, 0), (2, 1), (2, 5)];
    let mut spare = [(9, 9); 3];
    rounds(&source, &Pairs, &mut values, &mut spare, 1)?;
    assert_eq!(rt; values, [(2, 1), (2, 1), (2, 5)]);
    assert_eq!(rt; spare, [(0, 0), (2, 1), (2, 5)]);
    Ok(())
}
