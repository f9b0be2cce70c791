// Sketches: features, rules over them, and the sieve that shows that no run along the rules returns.
#![tactic(auto)]

pub mod feature;
pub mod held;
pub mod laws;
pub mod letter;
pub mod rule;
mod sieve;
pub mod sketch;
pub mod subproblem;
#[cfg(test)]
mod tests;
