// One whole search.
ghost use Rattle.std.specs.Prelude.{◌≡◌, ◌<◌, ◌≤◌, false, length, Ok};
ghost use Rattle.planner.specs.Findings.{WholeFindings};
ghost use Rattle.planner.specs.Search.{snap, task, given};
ghost use Rattle.planner.specs.Whole.{Within, reply_by, search_fault, at_end, search_reply, search_nodes, search_marks};

use crate::node::{Node, Outcome, Progress, Reply, Way};
use crate::task::Task;
use crate::way::trace_back;
use domain::model::StateModel;
use domain::refusal::Refusal;
use novelty::measure::Measure;

// What a search says of itself: found with the way, else exhausted if no state waits, else open.
pub(crate) fn reply<S>(nodes: &[Node<S>], progress: &Progress) -> Reply
    requires { Within (length nodes.now) progress.now.met }
    ensures { result ≡ reply_by nodes.now progress.now.met progress.now.expanded progress.now.kept }
{
    let outcome = match progress.met {
        Some(last) => Outcome::Found(Way {
            parent: last.parent,
            action: last.action,
            length: trace_back(nodes, last.parent).links + 1,
        }),
        None if progress.expanded < progress.kept => Outcome::Open,
        None => Outcome::Exhausted,
    };
    Reply {
        outcome,
        expanded: progress.expanded,
        kept: progress.kept,
    }
}

// Begins a search and advances it until it ends. A search under way owns its measure, and a whole one is lent it: so
// both stand on the kernel's `begin` and `advance`, and not the one on the other.
fn search_to_end<D: StateModel, M: Measure>(
    task: &Task<D, M>,
    nodes: &mut [Node<D::State>],
    marks: &mut [u8],
) -> Progress
    requires counted { task.now.count ≡ M.total task.now.measure.now }
    requires nodes { task.now.count ≤ length nodes.old }
    requires marks { task.now.count ≤ length marks.old }
    requires start { (D.meaning task.now.model.now).target (D.meaning task.now.model.now).start ≡ false }
    ensures value { snap nodes.new marks.new result ≡ at_end (given task.now) nodes.old marks.old }
    ensures within { Within (length nodes.new) result.met }
    ensures findings { WholeFindings (given task.now) nodes.old marks.old nodes.new (reply_by nodes.new result.met result.expanded result.kept) }
{
    let mut progress = task.begin(nodes, marks);
    task.advance(nodes, marks, &mut progress, task.count);
    progress
}

// Runs one whole search of the model by the measure, in the lent memory: breadth first, keeping the states that have
// an unmarked key. A search does not begin at a target, or with fewer places for states or marks than keys.
pub fn whole_search<D: StateModel, M: Measure>(
    model: &D,
    measure: &M,
    nodes: &mut [Node<D::State>],
    marks: &mut [u8],
) -> Result<Reply, Refusal>
    ensures value { result ≡ search_reply (search_fault (task (D.meaning model.now) (M.keys measure.now) (M.total measure.now)) nodes.old marks.old) (at_end (task (D.meaning model.now) (M.keys measure.now) (M.total measure.now)) nodes.old marks.old) }
    ensures nodes { nodes.new ≡ search_nodes (search_fault (task (D.meaning model.now) (M.keys measure.now) (M.total measure.now)) nodes.old marks.old) (at_end (task (D.meaning model.now) (M.keys measure.now) (M.total measure.now)) nodes.old marks.old) nodes.old }
    ensures marks { marks.new ≡ search_marks (search_fault (task (D.meaning model.now) (M.keys measure.now) (M.total measure.now)) nodes.old marks.old) (at_end (task (D.meaning model.now) (M.keys measure.now) (M.total measure.now)) nodes.old marks.old) marks.old }
    ensures findings { (reply : Reply) → result ≡ Ok reply → WholeFindings (task (D.meaning model.now) (M.keys measure.now) (M.total measure.now)) nodes.old marks.old nodes.new reply }
{
    if model.is_target(model.start()) {
        return Err(Refusal::AtTarget);
    }
    let task = Task::new(model, measure);
    task.check_places(nodes, marks)?;
    let progress = search_to_end(&task, nodes, marks);
    Ok(reply(nodes, &progress))
}
