// Four blocks on a table and one hand: the blocks world, with the Sussman anomaly as its problem.
// Blocks 0 to 3 are A to D. At the start C stands on A, and A, B and D on the table; the goal is A on B and B on C.
use domain::atoms::AtomSet;
use domain::strips::Action;

// Atoms: 0 to 3 block x is clear, 4 to 7 it stands on the table, 8 to 11 the hand holds it, 12 the hand is free,
// and from 13 on, in the order of PAIRS, x stands on y.
pub const ATOMS: usize = 25;

const FREE: u8 = 12;

const FIRST_ON: u8 = 13;

// Actions: 0 to 3 pick up x, 4 to 7 put down x, and in the order of PAIRS 8 to 19 stack x on y and 20 to 31 take x off y.
pub const ACTIONS: usize = 32;

const PAIRS: [(u8, u8); 12] = [
    (0, 1),
    (0, 2),
    (0, 3),
    (1, 0),
    (1, 2),
    (1, 3),
    (2, 0),
    (2, 1),
    (2, 3),
    (3, 0),
    (3, 1),
    (3, 2),
];

// Block numbers are below 4, so that `|` adds.
fn on_table(x: u8) -> u8 {
    4 | x
}

fn held(x: u8) -> u8 {
    8 | x
}

// An action that makes its preconditions false.
fn replacing(before: &[u8], after: &[u8]) -> Action {
    let preconditions = AtomSet::of(before);
    Action {
        preconditions,
        additions: AtomSet::of(after),
        deletions: preconditions,
    }
}

fn pick_up(x: u8) -> Action {
    replacing(&[x, on_table(x), FREE], &[held(x)])
}

fn put_down(x: u8) -> Action {
    replacing(&[held(x)], &[x, on_table(x), FREE])
}

// `on` is the atom that x stands on y.
fn stack(((x, y), on): ((u8, u8), u8)) -> Action {
    replacing(&[held(x), y], &[x, on, FREE])
}

fn take_off(((x, y), on): ((u8, u8), u8)) -> Action {
    replacing(&[x, on, FREE], &[held(x), y])
}

// The table of actions.
pub fn actions() -> [Action; ACTIONS] {
    let lifts = (0..4).map(pick_up).chain((0..4).map(put_down));
    let pairs = || PAIRS.into_iter().zip(FIRST_ON..);
    let stacks = pairs().map(stack).chain(pairs().map(take_off));
    let mut table = [Action::default(); ACTIONS];
    for (place, action) in table.iter_mut().zip(lifts.chain(stacks)) {
        *place = action;
    }
    table
}

// C on A, and A, B, D on the table: B, C and D are clear, and the hand is free.
pub fn start() -> AtomSet {
    AtomSet::of(&[
        1,
        2,
        3,
        on_table(0),
        on_table(1),
        on_table(3),
        FREE,
        FIRST_ON + 6,
    ])
}

// A on B, and B on C.
pub fn goal() -> AtomSet {
    AtomSet::of(&[FIRST_ON, FIRST_ON + 4])
}
