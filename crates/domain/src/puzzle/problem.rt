// A sliding puzzle as a state model.
ghost use Rattle.std.specs.Prelude.{◌≡◌, ℕ, ◌+◌, ◌*◌, ◌<◌};
ghost use Rattle.domain.specs.Atoms.{has, members};
ghost use Rattle.domain.specs.Puzzle.{standing, reached, puzzle};
ghost use Rattle.domain.specs.PuzzleLaws.{puzzle_lawful};
ghost use Rattle.domain.specs.Square.{stands};

use crate::atoms::AtomSet;
use crate::model::StateModel;
use crate::puzzle::{ATOMS, Board, DIRECTIONS, Puzzle};

// The atom that a piece is in a cell.
fn atom_of(piece: u8, cell: usize) -> u8
    requires { (piece < 9) × (cell < 9) }
    ensures { result ≡ 9 * piece + cell }
{
    9 * piece + cell as u8
}

impl Board {
    // The true atoms: that of each cell.
    fn truths(&self) -> AtomSet
        ensures value { members result ≡ standing self.now.cells }
        ensures membership { (a : ℕ) → has result a ≡ stands self.now.cells a }
    {
        let mut atoms = AtomSet::empty();
        for (cell, piece) in self.cells.iter().enumerate() {
            atoms.insert(atom_of(*piece, cell));
        }
        atoms
    }

    // Whether all of some atoms are true.
    fn shows(&self, atoms: &AtomSet) -> bool
        ensures { result ≡ reached (members atoms.now) self.now.cells }
    {
        atoms.is_subset(&self.truths())
    }
}

impl StateModel for Puzzle {
    type State = Board;

    ghost meaning = { λ m. puzzle m.start (members m.goal) };

    ghost lawful = { λ m. puzzle_lawful m.start (members m.goal) };

    fn atoms(&self) -> usize {
        ATOMS
    }

    fn actions(&self) -> usize {
        DIRECTIONS.len()
    }

    fn start(&self) -> Board {
        self.start
    }

    fn truths(&self, state: Board) -> AtomSet {
        state.truths()
    }

    fn is_target(&self, state: Board) -> bool {
        state.shows(&self.goal)
    }

    fn applies(&self, state: Board, action: usize) -> bool {
        state.destination(action).is_some()
    }

    fn successor(&self, state: Board, action: usize) -> Board {
        state.slide(action)
    }
}
