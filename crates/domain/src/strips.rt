// STRIPS problems over a table of actions that the caller lends.
ghost use Rattle.std.specs.Prelude.{◌≤◌, length};

use crate::atoms::AtomSet;

pub mod problem;

// What an action needs, makes true and makes false. The default one needs, adds and deletes nothing.
#[derive(Clone, Copy, Default, PartialEq, Eq, Debug)]
pub struct Action {
    pub preconditions: AtomSet,
    pub additions: AtomSet,
    pub deletions: AtomSet,
}

// A problem over a lent table.
#[derive(Clone, Copy)]
pub struct Strips<'a> {
    atoms: usize,
    start: AtomSet,
    goal: AtomSet,
    table: &'a [Action],
    ghost some: { 1 ≤ atoms },
    ghost few: { atoms ≤ 256 },
    ghost short: { length table.now ≤ 1024 },
}
