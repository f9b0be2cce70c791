// How a search under way is begun and advanced, and what it tells of itself.
ghost use Rattle.std.specs.Prelude.{◌≡◌, ◌≤◌, not, length, is_ok, IfOk, if◌then◌else◌, Ok, Err};
ghost use Rattle.domain.specs.declared.refusal.Refusal.TheVariants.{FewPlaces};
ghost use Rattle.planner.specs.Search.{task, begun};
ghost use Rattle.planner.specs.Stepwise.{started, lacks, worked_on, moved_on, advance_reply, InBounds, ReplyBounds};

use crate::node::{Node, Outcome, Reply};
use crate::stepwise::Search;
use crate::task::Task;
use crate::whole::reply;
use domain::model::StateModel;
use domain::refusal::Refusal;
use novelty::measure::Measure;

impl<M: Measure + Drop> Search<M> {
    // Begins a search of the model: the start is kept as number 0, with its keys alone marked. With fewer places for
    // states or marks than keys it is refused, and nothing is written.
    pub fn begin<D: StateModel>(
        measure: M,
        model: &D,
        nodes: &mut [Node<D::State>],
        marks: &mut [u8],
    ) -> Result<Search<M>, Refusal>
        ensures reply { elim result [ Ok s ↦ s ≡ started measure (M.total measure) | Err e ↦ e ≡ FewPlaces ] }
        ensures bounds { IfOk result (λ s. InBounds s) }
        ensures refused { is_ok result ≡ not (lacks (M.total measure) (length nodes.old) (length marks.old)) }
        ensures nodes { nodes.new ≡ (if lacks (M.total measure) (length nodes.old) (length marks.old) then nodes.old else (begun (task (D.meaning model.now) (M.keys measure) (M.total measure)) nodes.old marks.old).nodes) }
        ensures marks { marks.new ≡ (if lacks (M.total measure) (length nodes.old) (length marks.old) then marks.old else (begun (task (D.meaning model.now) (M.keys measure) (M.total measure)) nodes.old marks.old).marks) }
    {
        let task = Task::new(model, &measure);
        task.check_places(nodes, marks)?;
        let count = task.count;
        let progress = task.begin(nodes, marks);
        Ok(Search {
            measure,
            count,
            progress,
            outcome: Outcome::Open,
        })
    }

    // Expands at most `budget` states of the model, while none has met a target and one waits. With fewer places for
    // states or marks than keys it is refused, and nothing is written.
    pub fn advance<D: StateModel>(
        &mut self,
        model: &D,
        nodes: &mut [Node<D::State>],
        marks: &mut [u8],
        budget: usize,
    ) -> Result<Reply, Refusal>
        ensures reply { result ≡ advance_reply (worked_on (D.meaning model.now) M.keys budget self.old nodes.old marks.old) (lacks self.old.count (length nodes.old) (length marks.old)) }
        ensures told { IfOk result (λ r. ReplyBounds self.new.count r) }
        ensures held { InBounds self.old }
        ensures bounds { InBounds self.new }
        ensures search { self.new ≡ (if lacks self.old.count (length nodes.old) (length marks.old) then self.old else moved_on self.old (worked_on (D.meaning model.now) M.keys budget self.old nodes.old marks.old)) }
        ensures nodes { nodes.new ≡ (if lacks self.old.count (length nodes.old) (length marks.old) then nodes.old else (worked_on (D.meaning model.now) M.keys budget self.old nodes.old marks.old).nodes) }
        ensures marks { marks.new ≡ (if lacks self.old.count (length nodes.old) (length marks.old) then marks.old else (worked_on (D.meaning model.now) M.keys budget self.old nodes.old marks.old).marks) }
    {
        let task = Task {
            model,
            measure: &self.measure,
            count: self.count,
        };
        task.check_places(nodes, marks)?;
        task.advance(nodes, marks, &mut self.progress, budget);
        let told = reply(nodes, &self.progress);
        self.outcome = told.outcome;
        Ok(told)
    }

    // What the last advance replied; open before the first.
    pub fn outcome(&self) -> Outcome
        ensures value { result ≡ self.now.outcome }
        ensures bounds { InBounds self.now }
    {
        self.outcome
    }

    // How many states are expanded.
    pub fn expanded(&self) -> usize
        ensures value { result ≡ self.now.expanded }
        ensures small { result ≤ 65536 }
        ensures within { result ≤ self.now.count }
        ensures bounds { InBounds self.now }
    {
        self.progress.expanded
    }

    // How many keys the measure has.
    pub fn count(&self) -> usize
        ensures value { result ≡ self.now.count }
        ensures few { result ≤ 65536 }
        ensures bounds { InBounds self.now }
    {
        self.count
    }
}
