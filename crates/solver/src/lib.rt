// The solver: a plan by searches of rising width, subproblem after subproblem of a sketch, until a target.
#![tactic(auto)]

mod attempt;
pub mod report;
pub mod solve;
#[cfg(test)]
mod tests;
