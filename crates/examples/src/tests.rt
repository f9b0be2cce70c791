use crate::plain;
use crate::plain::Op;
use domain::atoms::AtomSet;
use domain::refusal::Refusal;
use domain::strips::{Action, Strips};
use novelty::tuples::Tuples;
use planner::node::{Node, Outcome, Reply};
use planner::way::write_way;
use planner::whole::whole_search;
use std::test::Fail;

// The set of the atoms whose bits are set.
fn set_of(bits: u8) -> AtomSet {
    let mut set = AtomSet::default();
    for atom in (0..8u8).filter(|atom| (bits >> *atom) & 1 == 1) {
        set.insert(atom);
    }
    set
}

fn action_of(op: Op) -> Action {
    Action {
        preconditions: set_of(op.needs),
        additions: set_of(op.adds),
        deletions: set_of(op.deletes),
    }
}

fn unused() -> Node<AtomSet> {
    Node::unlinked(AtomSet::default())
}

// A whole search of eight atoms by the sets of at most `width` of them.
fn searched(ops: &[Op; 8], start: u8, goal: u8, width: usize) -> Result<Reply, Refusal> {
    let table = ops.map(action_of);
    let model = Strips::new(8, set_of(start), set_of(goal), &table)?;
    let measure = Tuples::new(8, width)?;
    let mut nodes = [unused(); 128];
    let mut marks = [1u8; 128];
    whole_search(&model, &measure, &mut nodes, &mut marks)
}

// The length of the way found, if one was.
fn length_of(reply: &Reply) -> Option<usize> {
    match reply.outcome {
        Outcome::Found(way) => Some(way.length()),
        Outcome::Exhausted | Outcome::Open => None,
    }
}

// Action i needs and deletes atom i and adds the next; the atoms of the chain are an admissible set at width 1.
fn chain() -> [Op; 8] {
    let mut ops = [Op::default(); 8];
    for (op, bit) in ops.iter_mut().zip([1, 2, 4, 8, 16, 32, 64]) {
        *op = Op {
            needs: bit,
            adds: bit << 1,
            deletes: bit,
        };
    }
    ops
}

#[test]
fn chains_are_found_at_their_shortest(rt: HostRuntime) -> Result<(), Fail> {
    for goal in 1..8u8 {
        let reply = searched(&chain(), 1, 1 << goal, 1)?;
        let shortest = plain::shortest(&chain(), 1, 1 << goal);
        assert!(rt; shortest.is_some() && length_of(&reply) == shortest);
        assert!(rt; reply.expanded == reply.kept);
    }
    Ok(())
}

// Three switches, and a lamp that needs the first two.
fn switches() -> [Op; 8] {
    let mut ops = [Op::default(); 8];
    for (op, bit) in ops.iter_mut().zip([1, 2, 4]) {
        op.adds = bit;
    }
    ops[3] = Op {
        needs: 3,
        adds: 8,
        deletes: 0,
    };
    ops
}

#[test]
fn two_switches_want_two_atoms_at_a_time(rt: HostRuntime) -> Result<(), Fail> {
    let narrow = searched(&switches(), 0, 8, 1)?;
    assert!(rt; matches!(narrow.outcome, Outcome::Exhausted));
    let wide = searched(&switches(), 0, 8, 2)?;
    let shortest = plain::shortest(&switches(), 0, 8);
    assert!(rt; shortest.is_some() && length_of(&wide) == shortest);
    let widest = searched(&switches(), 0, 15, 3)?;
    let shortest = plain::shortest(&switches(), 0, 15);
    assert!(rt; shortest.is_some() && length_of(&widest) == shortest);
    Ok(())
}

#[test]
fn a_search_does_not_begin_at_a_target(rt: HostRuntime) {
    assert_eq!(rt; searched(&chain(), 1, 1, 1).err(), Some(Refusal::AtTarget));
    assert_eq!(rt;
        searched(&chain(), 1, 2, 4).err(),
        Some(Refusal::Range { place: 0 })
    );
}

#[test]
fn no_actions_and_many_actions(rt: HostRuntime) -> Result<(), Fail> {
    let mut nodes = [unused(); 4];
    let mut marks = [0u8; 4];
    let measure = Tuples::new(2, 2)?;
    let none = AtomSet::empty();
    let empty = Strips::new(2, none, set_of(1), &[])?;
    let reply = whole_search(&empty, &measure, &mut nodes, &mut marks)?;
    assert!(rt; reply.expanded == 1 && reply.kept == 1);
    let table = [action_of(Op::default()); 1024];
    let idle = Strips::new(2, none, set_of(1), &table)?;
    let reply = whole_search(&idle, &measure, &mut nodes, &mut marks)?;
    assert!(rt; matches!(reply.outcome, Outcome::Exhausted) && reply.kept == 1);
    Ok(())
}

// One place short: refused, and nothing is written.
#[test]
fn few_places_are_refused(rt: HostRuntime) -> Result<(), Fail> {
    let measure = Tuples::new(2, 2)?;
    let model = Strips::new(2, AtomSet::empty(), set_of(1), &[])?;
    let mut nodes = [unused(); 4];
    let mut marks = [7u8; 3];
    let result = whole_search(&model, &measure, &mut nodes, &mut marks);
    assert_eq!(rt; result.err(), Some(Refusal::FewPlaces));
    assert!(rt; marks[0] == 7 && marks[1] == 7 && marks[2] == 7);
    Ok(())
}

// Finds the way of the chain of three atoms, has a foreign hand write `action` into its first link, and writes the way
// into the list: its length, if one was found.
fn written(action: usize, list: &mut [usize]) -> Result<Option<usize>, Refusal> {
    let table = [action_of(chain()[0]), action_of(chain()[1])];
    let model = Strips::new(3, set_of(1), set_of(4), &table)?;
    let measure = Tuples::new(3, 1)?;
    let mut nodes = [unused(); 4];
    let mut marks = [0u8; 4];
    let reply = whole_search(&model, &measure, &mut nodes, &mut marks)?;
    nodes[1].action = action;
    let Outcome::Found(way) = reply.outcome else {
        return Ok(None);
    };
    Ok(Some(write_way(&model, &nodes, &way, list)?))
}

// The number of the refusal, if it was refused.
fn refusal_number(written: Result<Option<usize>, Refusal>) -> Option<usize> {
    written.err().map(|refusal| refusal.number())
}

// A way whose nodes a foreign hand has changed is refused, and so is one that the list has no room for.
#[test]
fn a_broken_way_is_refused(rt: HostRuntime) {
    let mut list = [9; 3];
    assert_eq!(rt; refusal_number(written(1, &mut list)), Some(12));
    assert!(rt; list[0] == 9 && list[1] == 9 && list[2] == 9);
    let mut short = [9; 1];
    assert_eq!(rt; refusal_number(written(0, &mut short)), Some(11));
    assert!(rt; short[0] == 9);
}

#[test]
fn a_way_is_written(rt: HostRuntime) {
    let mut list = [9; 3];
    assert_eq!(rt; refusal_number(written(0, &mut list)), None);
    assert!(rt; list[0] == 0 && list[1] == 1 && list[2] == 9);
}
