// Novelty measures.
#![tactic(auto)]

mod binomials;
mod marks;
pub mod measure;
#[cfg(test)]
mod tests;
pub mod tuples;
pub mod values;
