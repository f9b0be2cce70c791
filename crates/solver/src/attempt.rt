// One search of the subproblem at a run's current state, by the sets of at most `width` true atoms, from its begin to the
// end of its claim.
// The run and the lent lists are passed one by one: of a struct that holds several `&mut` each clause would say again that
// each stays the same reference.
ghost use Rattle.std.specs.Prelude.{◌≡◌, ◌+◌, ◌<◌, ◌^◌, length, None, Ok};
ghost use Rattle.runs.specs.Run.{view};
ghost use Rattle.runs.specs.Calls.{unless, told, worked_reply, abandon_fault, closed_run};
ghost use Rattle.solver.specs.Attempt.{settle_fault, settled_length, settled_run, settled_plan, opening_fault, ended, SearchedOut, attempt_fault, nodes_after, marks_after, plan_after, run_after, row_of};

use crate::report::Row;
use domain::model::StateModel;
use domain::refusal::Refusal;
use novelty::measure::Measure;
use novelty::tuples::Tuples;
use planner::node::Node;
use runs::claim::{Claim, Progressed, Refused, Work};
use runs::run::Run;

// A refused claim is spent; the refusal stays.
fn spent<C: Claim>(refused: Refused<C>) -> Refusal
    ensures { result ≡ refused.refusal }
{
    let Refused { refusal, claim } = refused;
    claim.spend();
    refusal
}

// Ends the open search with nothing adopted; such a search adds no steps.
fn give_up<D: StateModel, C: Claim>(
    run: &mut Run<D, Tuples>,
    claim: C,
) -> Result<Option<usize>, Refusal>
    ensures reply { result ≡ told (abandon_fault (view run.old) (C.kind claim) (C.numbered claim)) None }
    ensures run { view run.new ≡ unless (abandon_fault (view run.old) (C.kind claim) (C.numbered claim)) (view run.old) (closed_run (view run.old)) }
{
    run.abandon(claim).map_err(spent)?;
    Ok(None)
}

// Adopts what the open search found, or else abandons it, and tells how many steps came to the plan, if it found any.
fn settle<D: StateModel>(
    run: &mut Run<D, Tuples>,
    claim: Progressed,
    nodes: &[Node<D::State>],
    plan: &mut [usize],
) -> Result<Option<usize>, Refusal>
    ensures reply { result ≡ told (settle_fault (view run.old) claim nodes.now (length plan.old)) (settled_length (view run.old) claim) }
    ensures run { view run.new ≡ unless (settle_fault (view run.old) claim nodes.now (length plan.old)) (view run.old) (settled_run (view run.old) claim nodes.now) }
    ensures plan { plan.new ≡ unless (settle_fault (view run.old) claim nodes.now (length plan.old)) plan.old (settled_plan (view run.old) claim nodes.now plan.old) }
{
    match claim {
        Progressed::Open(ticket) => give_up(run, ticket),
        Progressed::Found(find, _) => run.adopt(find, nodes, plan).map(Some).map_err(spent),
        Progressed::Exhausted(stub) => give_up(run, stub),
    }
}

// Searches the subproblem at the current state to its end. The search stays open: its claim and its counts are told.
fn search_here<D: StateModel>(
    run: &mut Run<D, Tuples>,
    atoms: usize,
    width: usize,
    nodes: &mut [Node<D::State>],
    marks: &mut [u8],
) -> Result<Work, Refusal>
    ensures reply { result ≡ told (opening_fault atoms width (view run.old) (length nodes.old) (length marks.old)) (worked_reply (view run.old) (run.old.searches + 1) (ended atoms width (view run.old) nodes.old marks.old)) }
    ensures run { (work : Work) → result ≡ Ok work → SearchedOut atoms width (view run.old) (ended atoms width (view run.old) nodes.old marks.old) (view run.new) }
    ensures nodes { nodes.new ≡ nodes_after atoms width (view run.old) nodes.old marks.old }
    ensures marks { marks.new ≡ marks_after atoms width (view run.old) nodes.old marks.old }
{
    let measure = Tuples::new(atoms, width)?;
    let budget = measure.count();
    let ticket = run.begin(measure, nodes, marks)?;
    run.work(ticket, budget, nodes, marks).map_err(spent)
}

// One search of this width, after `before` others, and what comes of it.
pub(crate) fn attempt<D: StateModel>(
    run: &mut Run<D, Tuples>,
    atoms: usize,
    before: usize,
    width: usize,
    nodes: &mut [Node<D::State>],
    marks: &mut [u8],
    plan: &mut [usize],
) -> Result<Row, Refusal>
    requires { before + 1 < 2 ^ 64 }
    ensures reply { result ≡ told (attempt_fault atoms width (view run.old) nodes.old marks.old plan.old) (row_of (before + 1) width (ended atoms width (view run.old) nodes.old marks.old)) }
    ensures run { (row : Row) → result ≡ Ok row → view run.new ≡ run_after atoms width (view run.old) (ended atoms width (view run.old) nodes.old marks.old) }
    ensures nodes { nodes.new ≡ nodes_after atoms width (view run.old) nodes.old marks.old }
    ensures marks { marks.new ≡ marks_after atoms width (view run.old) nodes.old marks.old }
    ensures plan { plan.new ≡ plan_after atoms width (view run.old) nodes.old marks.old plan.old }
{
    let Work {
        claim,
        expanded,
        kept,
    } = search_here(run, atoms, width, nodes, marks)?;
    let length = settle(run, claim, nodes, plan)?;
    Ok(Row::after(before, width, expanded, kept, length))
}
