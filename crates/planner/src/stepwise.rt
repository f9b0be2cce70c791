// A search under way: it is begun once and then advanced by as many expansions at a time as the caller likes. Its
// nodes and marks are in the caller's memory.
use crate::node::{Outcome, Progress};
use std::marker::Model;

pub mod drive;

// `count` is how many keys the measure has, `outcome` what the last advance replied, and `Open` before the first.
#[derive(Drop)]
pub struct Search<M> {
    measure: M,
    count: usize,
    progress: Progress,
    outcome: Outcome,
}

impl<M> Model for Search<M> {
    ghost use Rattle.planner.specs.Stepwise.{UnderWay, standing, Bounds};

    ghost Value = { UnderWay M };

    ghost view = { λ s. standing s.measure s.count s.progress s.outcome };

    ghost invariant = { λ s. Bounds s.count s.progress };
}
