mod puzzle;

use crate::atoms::AtomSet;
use crate::model::StateModel;
use crate::refusal::Refusal;
use crate::strips::{Action, Strips};
use std::test::Fail;

#[test]
fn atoms_go_in_and_out(rt: HostRuntime) {
    let mut set = AtomSet::of(&[0, 63]);
    set.insert(64);
    set.insert(255);
    assert!(rt; set.contains(0) && set.contains(63) && set.contains(64) && set.contains(255));
    assert!(rt; !set.contains(1) && !set.contains(128) && set.count() == 4);
    set.remove(63);
    set.remove(255);
    assert!(rt; set.contains(0) && !set.contains(63) && set.contains(64) && !set.contains(255));
}

#[test]
fn a_set_of_listed_atoms(rt: HostRuntime) {
    let set = AtomSet::of(&[200, 3, 200]);
    assert!(rt; set.contains(3) && set.contains(200) && set.count() == 2);
    assert_eq!(rt; AtomSet::of(&[]), AtomSet::default());
    let idle = Action::default();
    assert!(rt;
        idle.preconditions.is_empty() && idle.additions.is_empty() && idle.deletions.is_empty()
    );
}

#[test]
fn below_a_bound(rt: HostRuntime) {
    let set = AtomSet::of(&[63, 255]);
    assert!(rt; set.below(0).is_empty());
    assert!(rt; set.below(255).contains(63) && !set.below(255).contains(255));
    assert!(rt; set.below(256).contains(255) && set.below(1000).contains(255));
}

#[test]
fn next_across_words(rt: HostRuntime) {
    let set = AtomSet::of(&[3, 200]);
    assert_eq!(rt; set.next_from(0), Some(3));
    assert_eq!(rt; set.next_from(3), Some(3));
    assert_eq!(rt; set.next_from(4), Some(200));
    assert_eq!(rt; set.next_from(201), None);
    assert_eq!(rt; set.next_from(1000), None);
}

#[test]
fn members_in_order(rt: HostRuntime) {
    let mut list = [7; 256];
    assert_eq!(rt; AtomSet::of(&[200, 64]).list_members(&mut list), 2);
    assert!(rt; list[0] == 64 && list[1] == 200 && list[2] == 7);
}

#[test]
fn counts_are_checked(rt: HostRuntime) {
    let none = AtomSet::empty();
    let high = AtomSet::of(&[255]);
    assert_eq!(rt;
        Strips::new(0, none, none, &[]).err(),
        Some(Refusal::Range { place: 0 })
    );
    assert_eq!(rt;
        Strips::new(257, none, none, &[]).err(),
        Some(Refusal::Limit { place: 0 })
    );
    assert_eq!(rt; Strips::new(256, high, none, &[]).err(), None);
    assert_eq!(rt;
        Strips::new(255, high, none, &[]).err(),
        Some(Refusal::Range { place: 0 })
    );
    let table = [Action::default(); 1025];
    assert_eq!(rt; Strips::new(1, none, none, &table[0..1024]).err(), None);
    assert_eq!(rt;
        Strips::new(1, none, none, &table).err(),
        Some(Refusal::Limit { place: 1024 })
    );
}

#[test]
fn the_lowest_wrong_action_is_told(rt: HostRuntime) {
    let none = AtomSet::empty();
    let wrong = Action {
        deletions: AtomSet::of(&[9]),
        ..Action::default()
    };
    let table = [Action::default(), wrong, wrong];
    assert_eq!(rt;
        Strips::new(9, none, none, &table).err(),
        Some(Refusal::Range { place: 1 })
    );
    assert_eq!(rt; Strips::new(10, none, none, &table).err(), None);
}

#[test]
fn atoms_past_the_count_are_false(rt: HostRuntime) -> Result<(), Fail> {
    let none = AtomSet::empty();
    let model = Strips::new(5, none, none, &[])?;
    let state = AtomSet::of(&[4, 5]);
    assert!(rt; model.truths(state).contains(4) && !model.truths(state).contains(5));
    assert!(rt; model.holds(state, 4) && !model.holds(state, 5) && !model.holds(state, 300));
    Ok(())
}

#[test]
fn deletions_before_additions(rt: HostRuntime) -> Result<(), Fail> {
    let none = AtomSet::empty();
    let table = [Action {
        preconditions: AtomSet::of(&[0, 1]),
        additions: AtomSet::of(&[1, 2]),
        deletions: AtomSet::of(&[0, 1]),
    }];
    let model = Strips::new(3, none, none, &table)?;
    let state = AtomSet::of(&[0, 1]);
    assert!(rt; model.applies(state, 0) && !model.applies(none, 0) && !model.applies(state, 1));
    let next = model.successor(state, 0);
    assert!(rt; !next.contains(0) && next.contains(1) && next.contains(2));
    assert!(rt; model.successor(none, 0).is_empty());
    Ok(())
}
