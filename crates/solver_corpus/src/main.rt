// Solves each problem text of a stored corpus, and prints for each the line `case NAME`, what the solving program prints for
// that text, and an empty line.
#![tactic(auto)]

use cases::{Case, Cases};
use report::{PLACES, ROWS, blank_row, print_result, solve_text};
use std::io::Read;

fn print_case(rt: &HostRuntime, case: &Case) -> anyhow::Result<()> {
    let name = std::str::from_utf8(case.name)?;
    println!(rt; "case {name}")?;
    let mut plan = [0; PLACES];
    let mut rows = [blank_row(); ROWS];
    let result = solve_text(case.text, &mut plan, &mut rows);
    print_result(rt, &result, &plan, &rows)?;
    println!(rt; "")?;
    Ok(())
}

// The corpus is read here and not in `cases`, since no call of a library allocates; what is left to share is the `for`.
fn main(rt: HostRuntime) -> anyhow::Result<()> {
    let mut corpus = Vec::new(rt.alloc());
    rt.stdin().read_to_end(&mut corpus)?;
    for case in Cases::new(&corpus) {
        print_case(&rt, &case?)?;
    }
    Ok(())
}
