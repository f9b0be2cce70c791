// Searches by the sets of at most k true atoms, for k = 0, 1, 2 in turn, until one finds a way.
ghost use Rattle.std.specs.Prelude.{◌≡◌, ℕ, ◌<◌, Ok, Err};
ghost use Rattle.planner.specs.Widths.{tuple_task, width_fault, Searched, Answered};
ghost use Rattle.planner.specs.Whole.{at_end, search_reply, search_nodes, search_marks};

use crate::node::{Node, Outcome, Reply};
use crate::way::write_way;
use crate::whole::whole_search;
use domain::model::StateModel;
use domain::refusal::Refusal;
use novelty::tuples::Tuples;

// The replies by width, `None` for a search that was not made, and how many steps the plan has, if a way was found.
#[derive(Clone, Copy, Debug, Default)]
pub struct Attempts {
    pub replies: [Option<Reply>; 3],
    pub steps: Option<usize>,
}

// One whole search of the model by the sets of at most `width` of its true atoms.
pub fn width_search<D: StateModel>(
    model: &D,
    width: usize,
    nodes: &mut [Node<D::State>],
    marks: &mut [u8],
) -> Result<Reply, Refusal>
    ensures value { result ≡ search_reply (width_fault (D.meaning model.now) width nodes.old marks.old) (at_end (tuple_task (D.meaning model.now) width) nodes.old marks.old) }
    ensures nodes { nodes.new ≡ search_nodes (width_fault (D.meaning model.now) width nodes.old marks.old) (at_end (tuple_task (D.meaning model.now) width) nodes.old marks.old) nodes.old }
    ensures marks { marks.new ≡ search_marks (width_fault (D.meaning model.now) width nodes.old marks.old) (at_end (tuple_task (D.meaning model.now) width) nodes.old marks.old) marks.old }
    ensures searched { (reply : Reply) → result ≡ Ok reply → Searched (D.meaning model.now) width nodes.new reply }
{
    let measure = Tuples::new(model.atoms(), width)?;
    whole_search(model, &measure, nodes, marks)
}

// Searches by the sets of at most k true atoms for k = 0, 1, 2 in turn, until one finds a way, and writes that way into
// the plan's beginning. A refusal writes nothing into the plan.
pub fn try_widths<D: StateModel>(
    model: &D,
    nodes: &mut [Node<D::State>],
    marks: &mut [u8],
    plan: &mut [usize],
) -> Result<Attempts, Refusal>
    ensures { Answered (D.meaning model.now) nodes.old marks.old plan.old nodes.new plan.new result }
{
    let mut replies = [None; 3];
    for (width, place) in replies.iter_mut().enumerate() {
        let reply = width_search(model, width, nodes, marks)?;
        *place = Some(reply);
        if let Outcome::Found(way) = reply.outcome {
            let steps = write_way(model, nodes, &way, plan)?;
            return Ok(Attempts {
                replies,
                steps: Some(steps),
            });
        }
    }
    Ok(Attempts {
        replies,
        steps: None,
    })
}
