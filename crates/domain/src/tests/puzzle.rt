use crate::atoms::AtomSet;
use crate::model::StateModel;
use crate::puzzle::{Board, Puzzle};
use crate::refusal::Refusal;
use std::test::Fail;

const ORDERED: [u8; 9] = [0, 1, 2, 3, 4, 5, 6, 7, 8];

const CENTRED: [u8; 9] = [1, 2, 3, 4, 0, 5, 6, 7, 8];

#[test]
fn pieces_are_checked(rt: HostRuntime) {
    assert_eq!(rt; Board::new(ORDERED).err(), None);
    assert_eq!(rt;
        Board::new([1, 2, 1, 2, 1, 2, 9, 9, 9]).err(),
        Some(Refusal::Range { place: 2 })
    );
    assert_eq!(rt;
        Board::new([9, 0, 0, 1, 2, 3, 4, 5, 6]).err(),
        Some(Refusal::Range { place: 0 })
    );
    assert_eq!(rt;
        Board::new([8, 7, 6, 5, 4, 3, 2, 1, 8]).err(),
        Some(Refusal::Range { place: 8 })
    );
    assert_eq!(rt;
        Board::new([8, 7, 6, 5, 4, 3, 2, 255, 0]).err(),
        Some(Refusal::Range { place: 7 })
    );
}

#[test]
fn goals_are_checked(rt: HostRuntime) -> Result<(), Fail> {
    let start = Board::new(ORDERED)?;
    assert_eq!(rt; Puzzle::new(start, &[]).err(), None);
    assert_eq!(rt; Puzzle::new(start, &[80; 9]).err(), None);
    assert_eq!(rt;
        Puzzle::new(start, &[80; 10]).err(),
        Some(Refusal::Limit { place: 9 })
    );
    assert_eq!(rt;
        Puzzle::new(start, &[81; 10]).err(),
        Some(Refusal::Limit { place: 9 })
    );
    assert_eq!(rt;
        Puzzle::new(start, &[0, 80, 81, 255]).err(),
        Some(Refusal::Range { place: 2 })
    );
    Ok(())
}

#[test]
fn the_gap_stays_in_the_square(rt: HostRuntime) -> Result<(), Fail> {
    let first = Board::new(ORDERED)?;
    let puzzle = Puzzle::new(first, &[])?;
    assert!(rt; !puzzle.applies(first, 0) && puzzle.applies(first, 1));
    assert!(rt; !puzzle.applies(first, 2) && puzzle.applies(first, 3));
    let last = Board::new([1, 2, 3, 4, 5, 6, 7, 8, 0])?;
    assert!(rt; puzzle.applies(last, 0) && !puzzle.applies(last, 1));
    assert!(rt; puzzle.applies(last, 2) && !puzzle.applies(last, 3));
    assert_eq!(rt; puzzle.successor(last, 3), last);
    Ok(())
}

#[test]
fn no_move_goes_past_the_end_of_a_row(rt: HostRuntime) -> Result<(), Fail> {
    let right = Board::new([1, 2, 3, 4, 5, 0, 6, 7, 8])?;
    let left = Board::new([1, 2, 3, 0, 4, 5, 6, 7, 8])?;
    let puzzle = Puzzle::new(right, &[])?;
    assert!(rt; puzzle.applies(right, 2) && !puzzle.applies(right, 3));
    assert!(rt; !puzzle.applies(left, 2) && puzzle.applies(left, 3));
    assert_eq!(rt; puzzle.successor(right, 3), right);
    assert_eq!(rt; puzzle.successor(left, 2), left);
    Ok(())
}

#[test]
fn the_gap_changes_places_with_its_neighbour(rt: HostRuntime) -> Result<(), Fail> {
    let board = Board::new(CENTRED)?;
    let puzzle = Puzzle::new(board, &[])?;
    assert_eq!(rt;
        puzzle.successor(board, 0),
        Board::new([1, 0, 3, 4, 2, 5, 6, 7, 8])?
    );
    assert_eq!(rt;
        puzzle.successor(board, 1),
        Board::new([1, 2, 3, 4, 7, 5, 6, 0, 8])?
    );
    assert_eq!(rt;
        puzzle.successor(board, 2),
        Board::new([1, 2, 3, 0, 4, 5, 6, 7, 8])?
    );
    assert_eq!(rt;
        puzzle.successor(board, 3),
        Board::new([1, 2, 3, 4, 5, 0, 6, 7, 8])?
    );
    Ok(())
}

#[test]
fn a_move_is_taken_back(rt: HostRuntime) -> Result<(), Fail> {
    let board = Board::new(CENTRED)?;
    let puzzle = Puzzle::new(board, &[])?;
    let up = puzzle.successor(board, 0);
    assert_eq!(rt; puzzle.successor(up, Puzzle::opposite(0)), board);
    let right = puzzle.successor(board, 3);
    assert_eq!(rt; puzzle.successor(right, Puzzle::opposite(3)), board);
    Ok(())
}

#[test]
fn other_numbers_are_no_actions(rt: HostRuntime) -> Result<(), Fail> {
    let board = Board::new(CENTRED)?;
    let puzzle = Puzzle::new(board, &[])?;
    assert!(rt; !puzzle.applies(board, 4) && !puzzle.applies(board, 18446744073709551615));
    assert_eq!(rt; puzzle.successor(board, 4), board);
    assert!(rt; puzzle.atoms() == 81 && puzzle.actions() == 4);
    Ok(())
}

#[test]
fn nine_atoms_are_true(rt: HostRuntime) -> Result<(), Fail> {
    let board = Board::new(CENTRED)?;
    let puzzle = Puzzle::new(board, &[])?;
    let truths: AtomSet = puzzle.truths(board);
    assert!(rt;
        truths.count() == 9 && truths.contains(4) && truths.contains(9) && truths.contains(80)
    );
    assert!(rt; !puzzle.holds(board, 0) && puzzle.holds(board, 4) && !puzzle.holds(board, 81));
    Ok(())
}

#[test]
fn a_target_shows_every_listed_atom(rt: HostRuntime) -> Result<(), Fail> {
    let ordered = Board::new(ORDERED)?;
    let board = Board::new(CENTRED)?;
    let whole = Puzzle::new(board, &[0, 10, 20, 30, 40, 50, 60, 70, 80])?;
    assert!(rt; whole.is_target(ordered) && !whole.is_target(board));
    let part = Puzzle::new(board, &[80, 80, 4])?;
    assert!(rt; part.is_target(board) && !part.is_target(ordered));
    assert!(rt; Puzzle::new(board, &[])?.is_target(board));
    Ok(())
}
