// What the programs do with a problem text and what they print: a line a search and a line a step of the plan, or the
// refusal alone.
#![tactic(auto)]

ghost use Rattle.std.specs.Prelude.{◌≡◌, ◌≤◌, length, take};
ghost use Rattle.problem.specs.Problem.{held, limited_problem};
ghost use Rattle.report.specs.Answered.{lists, SolvesParsed, Answers};
ghost use Rattle.solver.specs.Reported.{unmade_row};

use domain::atoms::AtomSet;
use domain::refusal::Refusal;
use domain::strips::{Action, Strips};
use planner::node::Node;
use problem::problem::{MAX_BYTES, Problem, read_limited};
use solver::report::{Report, Row};
use solver::solve::solve;
use std::io;

// Places for states, for marks and for steps.
pub const PLACES: usize = 512;

// Each adopted segment has a step, and each subproblem at most three searches.
pub const ROWS: usize = 1_539;

// Places for actions.
const ACTIONS: usize = 64;

// A row for a search that is not made yet. A const fn, as `Default::default` is none.
pub const fn blank_row() -> Row
    ensures { result ≡ unmade_row }
{
    Row {
        number: 0,
        width: 0,
        expanded: 0,
        kept: 0,
        length: None,
    }
}

// Solves a problem whose actions stand at the beginning of the table; the steps and the rows go into the lent lists.
fn solve_problem(
    problem: &Problem,
    table: &[Action],
    plan: &mut [usize],
    rows: &mut [Row],
) -> Result<Report, Refusal>
    requires { problem.now.action_count ≤ length table.now }
    ensures { SolvesParsed (held problem.now (take problem.now.action_count table.now)) problem.now.sketch (lists plan.old rows.old) (lists plan.new rows.new) result }
{
    let actions = &table[..problem.action_count];
    let model = Strips::new(problem.atoms, problem.start, problem.goal, actions)?;
    let mut nodes = [Node::unlinked(AtomSet::empty()); PLACES];
    let mut marks = [0u8; PLACES];
    solve(model, problem.sketch, &mut nodes, &mut marks, plan, rows)
}

// Reads a problem text and solves it; the steps and the rows go into the lent lists.
pub fn solve_text(text: &[u8], plan: &mut [usize], rows: &mut [Row]) -> Result<Report, Refusal>
    ensures { Answers (limited_problem 16384 64 text.now) (lists plan.old rows.old) (lists plan.new rows.new) result }
{
    let mut table = [Action::default(); ACTIONS];
    let problem = read_limited(text, MAX_BYTES, &mut table).map_err(|fault| fault.refusal())?;
    solve_problem(&problem, &table, plan, rows)
}

// The searches and the plan, which stand at the beginning of their lists; or only the refusal.
pub fn print_result(
    rt: &HostRuntime,
    res: &Result<Report, Refusal>,
    plan: &[usize],
    rows: &[Row],
) -> io::Result<()> {
    match res {
        Ok(report) => {
            print_searches(rt, rows, report.rows)?;
            print_plan(rt, plan, report.steps)
        }
        Err(refusal) => print_refusal(rt, refusal),
    }
}

// The refusal's number and place.
pub fn print_refusal(rt: &HostRuntime, refusal: &Refusal) -> io::Result<()> {
    let number = refusal.number();
    let place = refusal.place();
    println!(rt; "refusal place")?;
    println!(rt; "{number} {place}")
}

// What stands above the lines of the searches.
pub fn print_heading(rt: &HostRuntime) -> io::Result<()> {
    println!(rt; "search k found expanded kept length")
}

// One line a search, of those at the beginning of the list.
fn print_searches(rt: &HostRuntime, rows: &[Row], count: usize) -> io::Result<()> {
    print_heading(rt)?;
    for row in rows.iter().take(count) {
        println!(rt; "{row}")?;
    }
    Ok(())
}

// One line a step, of those at the beginning of the list: its number and the action.
pub fn print_plan(rt: &HostRuntime, plan: &[usize], steps: usize) -> io::Result<()> {
    println!(rt; "")?;
    println!(rt; "step action")?;
    for (step, action) in plan.iter().take(steps).enumerate() {
        println!(rt; "{step} {action}")?;
    }
    Ok(())
}
