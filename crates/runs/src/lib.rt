// Runs: a plan is found segment by segment, each by a search of a subproblem of a sketch.
#![tactic(auto)]

pub mod claim;
pub mod run;
