// How the way that the open search found becomes a segment of the plan.
ghost use Rattle.std.specs.Prelude.{◌≡◌, ◌+◌, ◌≤◌, length, Some};
ghost use Rattle.planner.specs.Way.{actions_of};
ghost use Rattle.runs.specs.Run.{view};
ghost use Rattle.runs.specs.Calls.{unless, told, handed, placed, found_way, way_actions, way_length, segment_fault, adopt_fault, adopted_run};

use crate::claim::{Claim, Find, Refused, hand_back};
use crate::run::Run;
use domain::model::StateModel;
use domain::refusal::Refusal;
use novelty::measure::Measure;
use planner::node::{Node, Outcome, Way};
use planner::stepwise::Search;
use planner::way::{follow, write_way};
use sketch::subproblem::Subproblem;

// A plan list's places past this many stay unused.
pub const MAX_STEPS: usize = 4_096;

impl<D: StateModel, M: Measure + Drop> Run<D, M> {
    // Writes a found way into the plan list from its used length on, once it is seen to hold.
    #[tactic(auto, using(crate::proofs::Adopting::fault_full, crate::proofs::Adopting::reply_is))]
    fn write_segment(
        &self,
        way: &Way,
        count: usize,
        nodes: &[Node<D::State>],
        plan: &mut [usize],
    ) -> Result<usize, Refusal>
        ensures reply { result ≡ told (segment_fault (view self.now) way.now count nodes.now (length plan.old)) way.now.length }
        ensures after { plan.new ≡ unless (segment_fault (view self.now) way.now count nodes.now (length plan.old)) plan.old (placed plan.old self.now.length (actions_of nodes.now way.now)) }
    {
        if nodes.len() < count {
            return Err(Refusal::FewPlaces);
        }
        let used = self.length;
        let end = plan.len().min(MAX_STEPS);
        if end < used {
            return Err(Refusal::PlanFull);
        }
        let here = Subproblem::new(&self.model, &self.sketch, self.current);
        write_way(&here, nodes, way, &mut plan[used..end])
    }

    // Writes the way that the open search found, if a find of this number is of it.
    fn write_found(
        &self,
        number: usize,
        nodes: &[Node<D::State>],
        plan: &mut [usize],
    ) -> Result<usize, Refusal>
        ensures reply { result ≡ told (adopt_fault (view self.now) number nodes.now (length plan.old)) (way_length (found_way (view self.now).opened)) }
        ensures after { plan.new ≡ unless (adopt_fault (view self.now) number nodes.now (length plan.old)) plan.old (placed plan.old self.now.length (way_actions nodes.now (found_way (view self.now).opened))) }
    {
        if let Some(search) = &self.open
            && let Outcome::Found(way) = search.outcome()
            && number == self.searches
        {
            return self.write_segment(&way, search.count(), nodes, plan);
        }
        Err(Refusal::ForeignClaim)
    }

    // Goes on from the end of a segment, and ends the open search.
    fn take_up(&mut self, segment: &[usize])
        requires { self.old.length + length segment.now ≤ 4096 }
        ensures { view self.new ≡ adopted_run (view self.old) segment.now (length segment.now) }
    {
        self.current = follow(&self.model, self.current, segment);
        self.length += segment.len();
        self.close();
    }

    // Adopts the way that the open search found: the plan list receives it as a segment from the used length on, its end
    // becomes current, and the search is closed. Nothing is written before every check is made.
    pub fn adopt(
        &mut self,
        find: Find,
        nodes: &[Node<D::State>],
        plan: &mut [usize],
    ) -> Result<usize, Refused<Find>>
        ensures reply { result ≡ handed (adopt_fault (view self.old) find nodes.now (length plan.old)) find (way_length (found_way (view self.old).opened)) }
        ensures run { view self.new ≡ unless (adopt_fault (view self.old) find nodes.now (length plan.old)) (view self.old) (adopted_run (view self.old) (way_actions nodes.now (found_way (view self.old).opened)) (way_length (found_way (view self.old).opened))) }
        ensures plan { plan.new ≡ unless (adopt_fault (view self.old) find nodes.now (length plan.old)) plan.old (placed plan.old self.old.length (way_actions nodes.now (found_way (view self.old).opened))) }
    {
        let length = hand_back(self.write_found(find.number(), nodes, plan), find)?;
        let used = self.length;
        self.take_up(&plan[used..used + length]);
        Ok(length)
    }
}
