// The sliding puzzle: eight pieces and a gap in a square of three by three cells.
ghost use Rattle.std.specs.Prelude.{◌≡◌, length};
ghost use Rattle.domain.specs.Square.{EachOnce};

use crate::atoms::AtomSet;

mod make;
mod moves;
pub mod problem;

// Atom 9 * piece + cell is true when the piece is in the cell.
const ATOMS: usize = 81;

// No goal lists more atoms.
const GOAL_LIMIT: usize = 9;

// The pieces by cells, row by row; piece 0 is the gap.
#[derive(Clone, Copy, PartialEq, Eq, Debug)]
pub struct Board {
    cells: [u8; 9],
    ghost nine: { length cells ≡ 9 },
    ghost once: { EachOnce cells },
}

// Where the gap goes.
#[derive(Clone, Copy)]
enum Direction {
    Up,
    Down,
    Left,
    Right,
}

// Action i moves the gap the way that stands at place i.
const DIRECTIONS: [Direction; 4] = [
    Direction::Up,
    Direction::Down,
    Direction::Left,
    Direction::Right,
];

// From a start to a board in which every goal atom is true.
#[derive(Clone, Copy)]
pub struct Puzzle {
    start: Board,
    goal: AtomSet,
}
