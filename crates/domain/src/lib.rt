// Atoms, refusals and state models.
#![tactic(auto)]

pub mod atoms;
pub mod model;
pub mod puzzle;
pub mod refusal;
pub mod strips;
#[cfg(test)]
mod tests;
mod words;
