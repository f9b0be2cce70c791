// A plan by searches of the widths 0, 1 and 2 in turn, subproblem after subproblem.
ghost use Rattle.std.specs.Prelude.{◌≡◌, not, Ok};
ghost use Rattle.runs.specs.Run.{view};
ghost use Rattle.solver.specs.Reported.{Reported};
ghost use Rattle.solver.specs.Solve.{memory, next_width, solved};

use crate::attempt::attempt;
use crate::report::{Ending, Report, Row};
use domain::model::StateModel;
use domain::refusal::Refusal;
use novelty::tuples::Tuples;
use planner::node::Node;
use runs::run::Run;
use sketch::sketch::Sketch;

// No subproblem is searched by wider sets.
pub const WIDEST: usize = 2;

// The width of the next search: 0 after a find, else the next one, if there is one.
fn width_after(found: bool, width: usize) -> Option<usize>
    ensures { result ≡ next_width found width }
{
    if found {
        return Some(0);
    }
    if width < WIDEST {
        Some(width + 1)
    } else {
        None
    }
}

// Whether a target is still to be reached.
fn short_of_target<D: StateModel>(run: &Run<D, Tuples>) -> bool
    ensures { result ≡ not ((view run.now).problem.target (view run.now).current) }
{
    !run.at_target()
}

// Solves a model along a sketch: at each state reached it searches the subproblem there by width 0, 1 and 2 in turn, adopts
// the first way found, and goes on from its end. It stops at a target of the model or at a third stub. Each search has a
// row; where no row is free it refuses.
pub fn solve<D: StateModel + Drop>(
    model: D,
    sketch: Sketch,
    nodes: &mut [Node<D::State>],
    marks: &mut [u8],
    plan: &mut [usize],
    rows: &mut [Row],
) -> Result<Report, Refusal>
    ensures reply { result ≡ (solved (D.meaning model) sketch (memory nodes.old marks.old plan.old rows.old)).reply }
    ensures nodes { nodes.new ≡ (solved (D.meaning model) sketch (memory nodes.old marks.old plan.old rows.old)).left.nodes }
    ensures marks { marks.new ≡ (solved (D.meaning model) sketch (memory nodes.old marks.old plan.old rows.old)).left.marks }
    ensures plan { plan.new ≡ (solved (D.meaning model) sketch (memory nodes.old marks.old plan.old rows.old)).left.plan }
    ensures rows { rows.new ≡ (solved (D.meaning model) sketch (memory nodes.old marks.old plan.old rows.old)).left.rows }
    ensures reported { (told : Report) → result ≡ Ok told → Reported (D.meaning model) sketch told plan.new rows.new }
{
    let atoms = model.atoms();
    let mut run: Run<D, Tuples> = Run::new(model, sketch);
    let mut made = 0;
    let mut width = 0;
    // A `for` over the rows would ask for the target twice, since the last row may be followed by one.
    while short_of_target(&run) {
        if made >= rows.len() {
            return Err(Refusal::Limit { place: made });
        }
        let row = attempt(&mut run, atoms, made, width, nodes, marks, plan)?;
        rows[made] = row;
        made += 1;
        let Some(next) = width_after(row.length.is_some(), width) else {
            return Ok(Report {
                rows: made,
                steps: run.plan_length(),
                ending: Ending::ThirdStub,
            });
        };
        width = next;
    }
    Ok(Report {
        rows: made,
        steps: run.plan_length(),
        ending: Ending::AtTarget,
    })
}
