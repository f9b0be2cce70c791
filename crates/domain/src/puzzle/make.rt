// How boards and puzzles are made.
ghost use Rattle.std.specs.Prelude.{◌≡◌, ◌<◌, not, take, position, nat_lt};
ghost use Rattle.domain.specs.Atoms.{upto};
ghost use Rattle.domain.specs.Boards.{fresh, BoardMade};
ghost use Rattle.domain.specs.Model.{among};
ghost use Rattle.domain.specs.PuzzleMade.{PuzzleMade};
ghost use Rattle.domain.specs.Square.{piece_at};

use crate::atoms::AtomSet;
use crate::puzzle::{ATOMS, Board, GOAL_LIMIT, Puzzle};
use crate::refusal::Refusal;

// Whether the piece of a cell stands in a lower cell too.
fn repeats(pieces: &[u8; 9], cell: usize) -> bool
    requires { cell < 9 }
    ensures { result ≡ among (take cell pieces.now) (piece_at pieces.now cell) }
{
    pieces[..cell].contains(&pieces[cell])
}

// Whether the piece of a cell is one of 0 to 8 and stands in no lower cell.
fn is_fresh(pieces: &[u8; 9], cell: usize) -> bool
    requires { cell < 9 }
    ensures { result ≡ fresh pieces.now cell }
{
    pieces[cell] < 9 && !repeats(pieces, cell)
}

// The first cell whose piece is past 8 or stands in a lower cell too.
fn first_stale(pieces: &[u8; 9]) -> Option<usize>
    ensures { result ≡ position (λ c. not (fresh pieces.now c)) (upto 9) }
{
    (0..9).position(|cell| !is_fresh(pieces, cell))
}

fn is_atom(number: u8) -> bool
    ensures { result ≡ nat_lt number 81 }
{
    (number as usize) < ATOMS
}

// The first listed atom past 80.
fn first_past(goal: &[u8]) -> Option<usize>
    ensures { result ≡ position (λ a. not (nat_lt a 81)) goal.now }
{
    goal.iter().position(|atom| !is_atom(*atom))
}

impl Board {
    // The board of the pieces by cells, or the first cell whose piece is past 8 or stands in a lower cell too.
    pub fn new(pieces: [u8; 9]) -> Result<Board, Refusal>
        ensures { BoardMade pieces result }
    {
        if let Some(place) = first_stale(&pieces) {
            return Err(Refusal::Range { place });
        }
        Ok(Board { cells: pieces })
    }
}

impl Puzzle {
    // The puzzle from a start to a board in which every listed atom is true, or what is wrong with the list.
    pub fn new(start: Board, goal: &[u8]) -> Result<Puzzle, Refusal>
        ensures { PuzzleMade start goal.now result }
    {
        if goal.len() > GOAL_LIMIT {
            return Err(Refusal::Limit { place: GOAL_LIMIT });
        }
        if let Some(place) = first_past(goal) {
            return Err(Refusal::Range { place });
        }
        Ok(Puzzle {
            start,
            goal: AtomSet::of(goal),
        })
    }
}
