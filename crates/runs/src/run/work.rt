// How the open search is advanced, and how it is abandoned.
ghost use Rattle.std.specs.Prelude.{◌≡◌, length};
ghost use Rattle.planner.specs.Whole.{reply_of};
ghost use Rattle.runs.specs.Run.{view};
ghost use Rattle.runs.specs.Calls.{unless, handed, work_fault, worked, worked_run, worked_reply, closed_run, abandon_fault, told};

use crate::claim::{Claim, Phase, Progressed, Refused, Ticket, Work, hand_back};
use crate::run::Run;
use domain::model::StateModel;
use domain::refusal::Refusal;
use novelty::measure::Measure;
use planner::node::{Node, Reply};
use planner::stepwise::Search;
use sketch::subproblem::Subproblem;

impl<D: StateModel, M: Measure + Drop> Run<D, M> {
    // Refuses a claim that is not of the open search: one is open, and the kind and the number are its own.
    fn check_claim(&self, kind: Phase, number: usize) -> Result<(), Refusal>
        ensures { result ≡ told (abandon_fault (view self.now) kind number) tt }
    {
        let latest = self.open.as_ref().is_some_and(|search| {
            number == self.searches && kind == Phase::from(search.outcome())
        });
        if latest {
            Ok(())
        } else {
            Err(Refusal::ForeignClaim)
        }
    }

    // Advances the open search, if a ticket of this number is of it.
    fn advance_open(
        &mut self,
        number: usize,
        budget: usize,
        nodes: &mut [Node<D::State>],
        marks: &mut [u8],
    ) -> Result<Reply, Refusal>
        ensures reply { result ≡ told (work_fault (view self.old) number (length nodes.old) (length marks.old)) (reply_of (worked (view self.old) M.keys budget nodes.old marks.old)) }
        ensures run { view self.new ≡ unless (work_fault (view self.old) number (length nodes.old) (length marks.old)) (view self.old) (worked_run (view self.old) (worked (view self.old) M.keys budget nodes.old marks.old)) }
        ensures nodes { nodes.new ≡ unless (work_fault (view self.old) number (length nodes.old) (length marks.old)) nodes.old (worked (view self.old) M.keys budget nodes.old marks.old).nodes }
        ensures marks { marks.new ≡ unless (work_fault (view self.old) number (length nodes.old) (length marks.old)) marks.old (worked (view self.old) M.keys budget nodes.old marks.old).marks }
    {
        self.check_claim(Phase::Working, number)?;
        let here = Subproblem::new(&self.model, &self.sketch, self.current);
        let search = self.open.as_mut().ok_or(Refusal::ForeignClaim)?;
        search.advance(&here, nodes, marks, budget)
    }

    // Advances the open search by at most `budget` expansions, and gives back a ticket, a find or a stub.
    pub fn work(
        &mut self,
        ticket: Ticket,
        budget: usize,
        nodes: &mut [Node<D::State>],
        marks: &mut [u8],
    ) -> Result<Work, Refused<Ticket>>
        ensures reply { result ≡ handed (work_fault (view self.old) ticket (length nodes.old) (length marks.old)) ticket (worked_reply (view self.old) ticket (worked (view self.old) M.keys budget nodes.old marks.old)) }
        ensures run { view self.new ≡ unless (work_fault (view self.old) ticket (length nodes.old) (length marks.old)) (view self.old) (worked_run (view self.old) (worked (view self.old) M.keys budget nodes.old marks.old)) }
        ensures nodes { nodes.new ≡ unless (work_fault (view self.old) ticket (length nodes.old) (length marks.old)) nodes.old (worked (view self.old) M.keys budget nodes.old marks.old).nodes }
        ensures marks { marks.new ≡ unless (work_fault (view self.old) ticket (length nodes.old) (length marks.old)) marks.old (worked (view self.old) M.keys budget nodes.old marks.old).marks }
    {
        let number = ticket.number();
        let reply = hand_back(self.advance_open(number, budget, nodes, marks), ticket)?;
        Ok(Work {
            claim: Progressed::of(reply.outcome, number),
            expanded: reply.expanded,
            kept: reply.kept,
        })
    }

    // Ends the open search; its expansions belong to the effort.
    pub(super) fn close(&mut self)
        ensures { view self.new ≡ closed_run (view self.old) }
    {
        if let Some(search) = self.open.take() {
            self.effort += search.expanded();
        }
    }

    // Ends the open search with nothing adopted.
    pub fn abandon<C: Claim>(&mut self, claim: C) -> Result<(), Refused<C>>
        ensures reply { result ≡ handed (abandon_fault (view self.old) (C.kind claim) (C.numbered claim)) claim tt }
        ensures run { view self.new ≡ unless (abandon_fault (view self.old) (C.kind claim) (C.numbered claim)) (view self.old) (closed_run (view self.old)) }
    {
        hand_back(self.check_claim(claim.phase(), claim.number()), claim)?;
        self.close();
        Ok(())
    }
}
