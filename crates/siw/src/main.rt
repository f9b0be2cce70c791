// Solves the built-in blocks problem by searches of rising width, and prints the searches and the plan.
#![tactic(auto)]

mod blocks;

use domain::atoms::AtomSet;
use domain::refusal::Refusal;
use domain::strips::Strips;
use planner::node::{Node, Outcome, Reply};
use planner::widths::{Attempts, try_widths};
use report::{PLACES, print_heading, print_plan, print_refusal};
use solver::report::Row;
use std::io;

// Solves the problem in memory of its own, and writes the plan.
fn solve(plan: &mut [usize]) -> Result<Attempts, Refusal> {
    let table = blocks::actions();
    let model = Strips::new(blocks::ATOMS, blocks::start(), blocks::goal(), &table)?;
    let mut nodes = [Node::unlinked(AtomSet::empty()); PLACES];
    let mut marks = [0u8; PLACES];
    try_widths(&model, &mut nodes, &mut marks, plan)
}

// What the solver would tell of the search by this width.
fn row(width: usize, reply: &Reply) -> Row {
    let length = match reply.outcome {
        Outcome::Found(way) => Some(way.length()),
        Outcome::Exhausted | Outcome::Open => None,
    };
    Row {
        number: width.saturating_add(1),
        width,
        expanded: reply.expanded,
        kept: reply.kept,
        length,
    }
}

// One line a search that was made.
fn print_searches(rt: &HostRuntime, attempts: &Attempts) -> io::Result<()> {
    print_heading(rt)?;
    for (width, reply) in attempts.replies.iter().flatten().enumerate() {
        let row = row(width, reply);
        println!(rt; "{row}")?;
    }
    Ok(())
}

fn main(rt: HostRuntime) -> io::Result<()> {
    let mut plan = [0; PLACES];
    match solve(&mut plan) {
        Ok(attempts) => {
            print_searches(&rt, &attempts)?;
            print_plan(&rt, &plan, attempts.steps.unwrap_or(0))
        }
        Err(refusal) => print_refusal(&rt, &refusal),
    }
}
