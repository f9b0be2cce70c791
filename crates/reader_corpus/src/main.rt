// Reads each text of a stored corpus, and prints a line for it: its name, the refusal's number and place, both 0 for a good
// text, and behind those of a good one how many atoms, actions, features and rules it has.
#![tactic(auto)]

use cases::{Case, Cases};
use domain::strips::Action;
use problem::problem::{MAX_BYTES, Problem, read_limited};
use std::io;
use std::io::Read;

// As many places for actions as the solving program has.
const PLACES: usize = 64;

fn print_good(rt: &HostRuntime, name: &str, problem: &Problem) -> io::Result<()> {
    let atoms = problem.atoms;
    let actions = problem.action_count;
    let features = problem.sketch.feature_count();
    let rules = problem.sketch.rule_count();
    println!(rt; "{name} 0 0 {atoms} {actions} {features} {rules}")
}

fn print_case(rt: &HostRuntime, case: &Case) -> anyhow::Result<()> {
    let name = std::str::from_utf8(case.name)?;
    let mut actions = [Action::default(); PLACES];
    match read_limited(case.text, MAX_BYTES, &mut actions) {
        Ok(problem) => print_good(rt, name, &problem)?,
        Err(fault) => {
            let number = fault.refusal().number();
            let place = fault.refusal().place();
            println!(rt; "{name} {number} {place}")?;
        }
    }
    Ok(())
}

// The corpus is read here and not in `cases`, since no call of a library allocates; what is left to share is the `for`.
fn main(rt: HostRuntime) -> anyhow::Result<()> {
    let mut corpus = Vec::new(rt.alloc());
    rt.stdin().read_to_end(&mut corpus)?;
    for case in Cases::new(&corpus) {
        print_case(&rt, &case?)?;
    }
    Ok(())
}
