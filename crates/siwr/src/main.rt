// Solves a problem text along its sketch, and prints the searches and the plan, or the refusal.
// The text comes from standard input, or from the file that the argument names.
#![tactic(auto)]

use anyhow::anyhow;
use domain::refusal::Refusal;
use report::{PLACES, ROWS, blank_row, print_result, solve_text};
use solver::report::{Report, Row};
use std::io::Read;
use std::{env, fs};

fn solve_input(
    rt: &HostRuntime,
    plan: &mut [usize],
    rows: &mut [Row],
) -> anyhow::Result<Result<Report, Refusal>> {
    let mut text = Vec::new(rt.alloc());
    rt.stdin().read_to_end(&mut text)?;
    Ok(solve_text(&text, plan, rows))
}

fn main(rt: HostRuntime) -> anyhow::Result<()> {
    let mut plan = [0; PLACES];
    let mut rows = [blank_row(); ROWS];
    let result = match env::args(&rt)?.nth(1) {
        Some(path) => {
            let text = fs::read(&rt, path.as_str())?;
            solve_text(&text, &mut plan, &mut rows)
        }
        None => solve_input(&rt, &mut plan, &mut rows)?,
    };
    print_result(&rt, &result, &plan, &rows)?;
    result.map(|_| ()).map_err(|_| anyhow!("refused"))
}
