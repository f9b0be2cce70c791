// Examples: two atoms, each made true by an action of its own, along a sketch that counts the atoms still false.
use crate::report::{Ending, Report, Row};
use crate::solve::solve;
use domain::atoms::AtomSet;
use domain::refusal::Refusal;
use domain::strips::{Action, Strips};
use planner::node::Node;
use sketch::feature::{Feature, Kind};
use sketch::rule::{Condition, Effect, Entry, Rule};
use sketch::sketch::Sketch;
use std::test::Fail;

fn adding(atom: u8) -> Action {
    Action {
        additions: AtomSet::of(&[atom]),
        ..Action::default()
    }
}

fn solve_two(
    start: AtomSet,
    table: &[Action],
    plan: &mut [usize],
    rows: &mut [Row],
) -> Result<Report, Refusal> {
    let both = AtomSet::of(&[0, 1]);
    let model = Strips::new(2, start, both, table)?;
    let mut falls = Rule::blank();
    falls.entries[0] = Entry {
        when: Condition::Positive,
        then: Effect::Down,
    };
    let count = Feature {
        kind: Kind::FalseCount,
        atoms: both,
    };
    let sketch = Sketch::new(&[count], &[falls])?;
    let mut nodes = [Node::unlinked(AtomSet::empty()); 4];
    let mut marks = [0u8; 4];
    solve(model, sketch, &mut nodes, &mut marks, plan, rows)
}

#[test]
fn one_atom_after_the_other(rt: HostRuntime) -> Result<(), Fail> {
    let mut plan = [9; 3];
    let mut rows = [Row::default(); 3];
    let report = solve_two(
        AtomSet::empty(),
        &[adding(0), adding(1)],
        &mut plan,
        &mut rows,
    )?;
    let found = Row {
        number: 1,
        width: 0,
        expanded: 1,
        kept: 1,
        length: Some(1),
    };
    let ending = Ending::AtTarget;
    assert_eq!(rt;
        report,
        Report {
            rows: 2,
            steps: 2,
            ending,
        }
    );
    assert_eq!(rt; rows[0], found);
    assert_eq!(rt; rows[1], Row { number: 2, ..found });
    assert_eq!(rt; rows[2], Row::default());
    assert!(rt; plan[0] == 0 && plan[1] == 1 && plan[2] == 9);
    Ok(())
}

// Nothing makes atom 1 true: after the first step each width is exhausted.
#[test]
fn a_third_stub(rt: HostRuntime) -> Result<(), Fail> {
    let mut plan = [9; 3];
    let mut rows = [Row::default(); 4];
    let report = solve_two(AtomSet::empty(), &[adding(0)], &mut plan, &mut rows)?;
    let ending = Ending::ThirdStub;
    assert_eq!(rt;
        report,
        Report {
            rows: 4,
            steps: 1,
            ending,
        }
    );
    assert!(rt;
        rows[0].length.is_some()
            && rows[1].length.is_none()
            && rows[2].length.is_none()
            && rows[3].length.is_none()
    );
    assert!(rt; rows[1].width == 0 && rows[2].width == 1 && rows[3].width == 2);
    assert!(rt; plan[0] == 0 && plan[1] == 9);
    Ok(())
}

// At a target no search is made; without a row none is begun, and a full plan ends the solver.
#[test]
fn at_the_limits(rt: HostRuntime) -> Result<(), Fail> {
    let table = [adding(0), adding(1)];
    let both = AtomSet::of(&[0, 1]);
    let ending = Ending::AtTarget;
    let report = solve_two(both, &table, &mut [], &mut [])?;
    assert_eq!(rt;
        report,
        Report {
            rows: 0,
            steps: 0,
            ending,
        }
    );
    let mut rows = [Row::default(); 2];
    let few = solve_two(AtomSet::of(&[0]), &table, &mut [9; 2], &mut []).err();
    assert_eq!(rt; few, Some(Refusal::Limit { place: 0 }));
    let full = solve_two(AtomSet::empty(), &table, &mut [9; 1], &mut rows).err();
    assert_eq!(rt; full, Some(Refusal::PlanFull));
    assert!(rt; rows[0].length.is_some() && rows[1] == Row::default());
    Ok(())
}
