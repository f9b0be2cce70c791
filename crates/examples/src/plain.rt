// Plain breadth-first search over the states of at most eight atoms, with no novelty: a second figure to compare with.

// An action on states of eight atoms, one bit an atom.
#[derive(Clone, Copy, Default)]
pub struct Op {
    pub needs: u8,
    pub adds: u8,
    pub deletes: u8,
}

impl Op {
    // The state that follows, if the action applies.
    fn next(&self, state: u8) -> Option<u8> {
        (state & self.needs == self.needs).then_some((state & !self.deletes) | self.adds)
    }
}

// How far each state is from the start; None where it was not reached.
type Distances = [Option<u16>; 256];

// Every state that one action leads to from `state` and that was not reached before is one further.
fn relax(distances: &mut Distances, ops: &[Op], state: u8, level: u16) {
    for next in ops.iter().filter_map(|op| op.next(state)) {
        distances[usize::from(next)].get_or_insert(level.saturating_add(1));
    }
}

fn expand_level(distances: &mut Distances, ops: &[Op], level: u16) {
    // A chain with `filter` would hold the distances that the loop changes.
    for state in 0..=255u8 {
        if distances[usize::from(state)] == Some(level) {
            relax(distances, ops, state, level);
        }
    }
}

fn distances_from(ops: &[Op], start: u8) -> Distances {
    let mut distances = [None; 256];
    distances[usize::from(start)] = Some(0);
    // The levels are no places of a list: each is told to the next step, in order.
    for level in 0..256u16 {
        expand_level(&mut distances, ops, level);
    }
    distances
}

// The length of a shortest way from the start to a state with all goal atoms, if there is one.
pub fn shortest(ops: &[Op], start: u8, goal: u8) -> Option<usize> {
    let distances = distances_from(ops, start);
    (0..=255u8)
        .filter(|state| state & goal == goal)
        .filter_map(|state| distances[usize::from(state)])
        .min()
        .map(usize::from)
}
