// Novelty searches over state models, in memory that the caller lends.
#![tactic(auto)]

pub mod node;
pub mod search;
pub mod stepwise;
mod task;
pub mod way;
pub mod whole;
pub mod widths;
