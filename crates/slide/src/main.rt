// Solves a built-in scrambled board of the sliding puzzle by searches of rising width, and prints the searches and the plan.
#![tactic(auto)]

use domain::puzzle::{Board, Puzzle};
use domain::refusal::Refusal;
use planner::node::Node;
use report::{blank_row, print_refusal, print_result};
use sketch::sketch::Sketch;
use solver::report::{Report, Row};
use solver::solve::solve;
use std::io;

// One place for each set of at most two of the 81 atoms: 1 + 81 + 3,240.
const PLACES: usize = 3322;

// Without rules there is one subproblem, the whole problem, and it has three searches.
const ROWS: usize = 3;

// The pieces by cells, row by row; 0 is the gap.
const SCRAMBLED: [u8; 9] = [8, 0, 1, 3, 6, 2, 7, 5, 4];

// Each piece in the cell of its own number: atom 9 * p + p for the pieces p.
const ORDERED: [u8; 9] = [0, 10, 20, 30, 40, 50, 60, 70, 80];

// Searches from a start, in lent memory, and writes the plan.
fn search(
    start: Board,
    nodes: &mut [Node<Board>],
    marks: &mut [u8],
    plan: &mut [usize],
    rows: &mut [Row],
) -> Result<Report, Refusal> {
    let puzzle = Puzzle::new(start, &ORDERED)?;
    let sketch = Sketch::new(&[], &[])?;
    solve(puzzle, sketch, nodes, marks, plan, rows)
}

// Solves the puzzle in memory of its own, and prints what came of it.
fn solve_board(rt: &HostRuntime, start: Board) -> io::Result<()> {
    let mut nodes = vec![in rt.alloc(); Node::unlinked(start); PLACES]?;
    let mut marks = vec![in rt.alloc(); 0; PLACES]?;
    let mut plan = vec![in rt.alloc(); 0; PLACES]?;
    let mut rows = [blank_row(); ROWS];
    let result = search(start, &mut nodes, &mut marks, &mut plan, &mut rows);
    print_result(rt, &result, &plan, &rows)
}

fn main(rt: HostRuntime) -> io::Result<()> {
    match Board::new(SCRAMBLED) {
        Ok(start) => solve_board(&rt, start),
        Err(refusal) => print_refusal(&rt, &refusal),
    }
}
