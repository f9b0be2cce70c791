// How a search of the current subproblem is opened.
ghost use Rattle.std.specs.Prelude.{◌≡◌, ◌+◌, length};
ghost use Rattle.planner.specs.Search.{task, begun};
ghost use Rattle.runs.specs.Run.{view};
ghost use Rattle.runs.specs.Calls.{unless, told, subgoal, begin_fault, begun_run, begun_ticket};

use crate::claim::Ticket;
use crate::run::Run;
use domain::model::StateModel;
use domain::refusal::Refusal;
use novelty::measure::Measure;
use planner::node::Node;
use planner::stepwise::Search;
use sketch::subproblem::Subproblem;

// No run makes more searches.
pub const MAX_SEARCHES: usize = 65_535;

impl<D: StateModel, M: Measure + Drop> Run<D, M> {
    // Opens a search of the subproblem at the current state by the measure, in the lent memory, and hands out its ticket.
    // A clause for each thing that a call leaves, and not one over all: callers and histories take each of them alone.
    pub fn begin(
        &mut self,
        measure: M,
        nodes: &mut [Node<D::State>],
        marks: &mut [u8],
    ) -> Result<Ticket, Refusal>
        ensures reply { result ≡ told (begin_fault (view self.old) (M.total measure) (length nodes.old) (length marks.old)) (begun_ticket (view self.old)) }
        ensures run { view self.new ≡ unless (begin_fault (view self.old) (M.total measure) (length nodes.old) (length marks.old)) (view self.old) (begun_run (view self.old) measure (M.total measure)) }
        ensures nodes { nodes.new ≡ unless (begin_fault (view self.old) (M.total measure) (length nodes.old) (length marks.old)) nodes.old (begun (task (subgoal (view self.old)) (M.keys measure) (M.total measure)) nodes.old marks.old).nodes }
        ensures marks { marks.new ≡ unless (begin_fault (view self.old) (M.total measure) (length nodes.old) (length marks.old)) marks.old (begun (task (subgoal (view self.old)) (M.keys measure) (M.total measure)) nodes.old marks.old).marks }
    {
        if self.open.is_some() {
            return Err(Refusal::SearchOpen);
        }
        if self.searches >= MAX_SEARCHES {
            return Err(Refusal::ManySearches);
        }
        if self.model.is_target(self.current) {
            return Err(Refusal::AtTarget);
        }
        let here = Subproblem::new(&self.model, &self.sketch, self.current);
        let search = Search::begin(measure, &here, nodes, marks)?;
        self.searches += 1;
        self.open = Some(search);
        Ok(Ticket::of(self.searches))
    }
}
