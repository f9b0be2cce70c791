// How the gap moves: from its cell to a neighbour in the square.
ghost use Rattle.std.specs.Prelude.{◌≡◌, ◌<◌, ◌==◌, position};
ghost use Rattle.domain.specs.Moves.{direction_of, action_of, turned, opposite_of, neighbour, destination, traded};
ghost use Rattle.domain.specs.Puzzle.{after, Undoes};
ghost use Rattle.domain.specs.Square.{gap};

use crate::puzzle::{Board, DIRECTIONS, Direction, Puzzle};

impl Direction {
    // Which way an action moves the gap; a number past 3 is no action.
    fn of(action: usize) -> Option<Direction>
        ensures { result ≡ direction_of action }
    {
        DIRECTIONS.get(action).copied()
    }

    // The action that moves the gap this way.
    fn action(self) -> usize
        ensures { result ≡ action_of self }
    {
        self as usize
    }

    // Up for down, left for right, and back.
    fn opposite(self) -> Direction
        ensures { result ≡ turned self }
    {
        match self {
            Direction::Up => Direction::Down,
            Direction::Down => Direction::Up,
            Direction::Left => Direction::Right,
            Direction::Right => Direction::Left,
        }
    }

    // The neighbour of a cell, if it is in the square.
    fn neighbour(self, cell: usize) -> Option<usize>
        requires { cell < 9 }
        ensures { result ≡ neighbour cell self }
    {
        match self {
            Direction::Up if cell / 3 > 0 => Some(cell - 3),
            Direction::Down if cell / 3 < 2 => Some(cell + 3),
            Direction::Left if cell % 3 > 0 => Some(cell - 1),
            Direction::Right if cell % 3 < 2 => Some(cell + 1),
            _ => None,
        }
    }
}

impl Board {
    // The first cell with a piece.
    fn cell_of(&self, piece: u8) -> Option<usize>
        ensures { result ≡ position (λ x. x == piece) self.now.cells }
    {
        self.cells.iter().position(|x| *x == piece)
    }

    // The cell of the gap.
    fn gap(&self) -> usize
        ensures value { result ≡ gap self.now.cells }
        ensures inside { result < 9 }
    {
        self.cell_of(0).unwrap()
    }

    // Where the gap goes by an action, if it moves.
    pub(super) fn destination(&self, action: usize) -> Option<usize>
        ensures { result ≡ destination (gap self.now.cells) action }
    {
        Direction::of(action)?.neighbour(self.gap())
    }

    // The cells after the gap has changed places with the piece of a cell.
    fn traded(&self, cell: usize) -> [u8; 9]
        requires { cell < 9 }
        ensures { result ≡ traded self.now.cells (gap self.now.cells) cell }
    {
        let mut cells = self.cells;
        cells.swap(self.gap(), cell);
        cells
    }

    // The board after an action; the same where it does not apply.
    pub(super) fn slide(&self, action: usize) -> Board
        ensures { result ≡ after self.now action }
    {
        let Some(cell) = self.destination(action) else {
            return *self;
        };
        Board {
            cells: self.traded(cell),
        }
    }
}

impl Puzzle {
    // The action that takes back another: up for down, left for right. A number past 3 is no action, and stays.
    pub fn opposite(action: usize) -> usize
        ensures value { result ≡ opposite_of action }
        ensures back { Undoes action result }
    {
        Direction::of(action).map_or(action, |direction| direction.opposite().action())
    }
}
