// Problem texts: what a text means, and the reader that finds it out.
#![tactic(auto)]

pub mod fault;
mod form;
pub mod laws;
mod line;
mod numeral;
pub mod problem;
mod reader;
mod reading;
mod role;
mod rows;
mod tables;
#[cfg(test)]
mod tests;
