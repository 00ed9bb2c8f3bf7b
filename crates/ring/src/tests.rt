use crate::ring::Ring;
use ladder::ladder::Ladder;
use layers::fault::HoldFault;
use layers::hold::Hold;
use model::branch::Branch;
use model::source::Source;
use std::process::Abort;
use std::test::Fail;
use tables::tables::Tables;

const NONE: Branch = Branch {
    target: 0,
    weight: 0,
};

// The branch to this state with this weight.
fn to(target: usize, weight: u32) -> Branch {
    Branch { target, weight }
}

// The ring that the tests read: three states, on with 4 out of 10.
fn ring() -> Ring {
    Ring {
        states: 3,
        denominator: 10,
        weight: 4,
    }
}

// Asks past every end of a source: each answer is 0 or no labels.
fn nothing_past<S: Source>(rt: &impl Abort, source: &S) {
    let states = source.states();
    assert_eq!(rt; source.labels(states).letters, [false; 16]);
    assert_eq!(rt; source.choices(states), 0);
    assert_eq!(rt; source.branches(states, 0), 0);
    assert_eq!(rt; source.branch(states, 0, 0), NONE);
    assert_eq!(rt; source.branches(0, source.choices(0)), 0);
    assert_eq!(rt; source.branch(0, source.choices(0), 0), NONE);
    assert_eq!(rt; source.branch(0, 0, source.branches(0, 0)), NONE);
}

#[test]
fn pile_of_two_layers(rt: HostRuntime) -> Result<(), Fail> {
    let mut lower = Hold::over(ring());
    lower.hold(2)?;
    let mut pile = Hold::over(lower);
    pile.hold(0)?;
    pile.hold(0)?;
    assert_eq!(rt; pile.hold(3), Err(HoldFault::Held));
    assert_eq!(rt; HoldFault::Held.number(), 43);
    assert_eq!(rt; pile.branch(0, 0, 0), to(0, 10));
    assert_eq!(rt; pile.branch(1, 0, 1), to(2, 4));
    assert_eq!(rt; pile.branch(2, 0, 0), to(2, 10));
    nothing_past(&rt, &pile);
    Ok(())
}

#[test]
fn rows_read_in_bulk(rt: HostRuntime) -> Result<(), Fail> {
    let mut pile = Hold::over(Hold::over(ring()));
    let mut short = [NONE; 1];
    assert_eq!(rt; pile.read_row(2, 0, &mut short), 2);
    assert_eq!(rt; short, [to(0, 4)]);
    let mut long = [NONE; 3];
    assert_eq!(rt; pile.read_row(2, 0, &mut long), 2);
    assert_eq!(rt; long, [short[0], to(2, 6), NONE]);
    pile.hold(2)?;
    assert_eq!(rt; pile.read_row(2, 0, &mut []), 1);
    assert_eq!(rt; pile.read_row(2, 0, &mut short), 1);
    assert_eq!(rt; short, [to(2, 10)]);
    Ok(())
}

#[test]
fn tables_and_ladder_under_layers(rt: HostRuntime) -> Result<(), Fail> {
    let mut tables = Tables::new(rt.alloc())?;
    nothing_past(&rt, &tables);
    tables.load(b"mdp\t2\t3\ns\tb\nc\nb\t0\t2\nb\t1\t1\nc\nb\t1\t3\ns\t-\nc\nb\t1\t3\nend\n")?;
    nothing_past(&rt, &tables);
    let mut pile = Hold::over(Hold::over(&tables));
    assert_eq!(rt; pile.branch(0, 1, 0), to(1, 3));
    pile.hold(0)?;
    assert_eq!(rt; pile.branch(0, 0, 0), to(0, 3));
    assert_eq!(rt; pile.branches(0, 1), 0);
    assert!(rt; pile.labels(0).letters[1]);
    nothing_past(&rt, &pile);
    nothing_past(&rt, &Hold::over(Ladder::new(1, 1, 1)?));
    Ok(())
}

// The number that these three are refused with, or 0, the value expected where nothing is refused.
fn refusal(rungs: usize, denominator: u32, weight: u32) -> u8 {
    match Ladder::new(rungs, denominator, weight) {
        Ok(_) => 0,
        Err(fault) => fault.number(),
    }
}

#[test]
fn ladder_edges(rt: HostRuntime) {
    for (rungs, denominator, weight, number) in [
        (0, 0, 0, 40),
        (512, 0, 0, 40),
        (1, 0, 0, 41),
        (511, 1_000_001, 0, 41),
        (1, 1, 0, 42),
        (511, 1_000_000, 1_000_001, 42),
        (1, 1, 1, 0),
        (511, 1_000_000, 1, 0),
        (511, 1_000_000, 1_000_000, 0),
    ] {
        assert_eq!(rt; refusal(rungs, denominator, weight), number);
    }
}

#[test]
fn ladder_rows(rt: HostRuntime) -> Result<(), Fail> {
    let ladder = Ladder::new(2, 4, 3)?;
    assert_eq!(rt; ladder.branch(0, 1, 0), to(0, 1));
    assert_eq!(rt; ladder.branch(0, 1, 1), to(1, 3));
    assert!(rt; ladder.labels(2).letters[0] && ladder.labels(0).letters[1]);
    nothing_past(&rt, &ladder);
    let sure = Ladder::new(2, 4, 4)?;
    assert_eq!(rt; sure.branches(0, 1), 1);
    assert_eq!(rt; sure.branch(0, 1, 0), to(1, 4));
    Ok(())
}
