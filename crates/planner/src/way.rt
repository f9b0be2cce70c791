// The way back from a kept state to the start, by its links, and the writing of a found way.
ghost use Rattle.std.specs.Prelude.{◌≡◌, ◌<◌, ◌≤◌, false, true, ◌++◌, length, drop, slice_index, MatchOption};
ghost use Rattle.planner.specs.Way.{way_to, root, lower, actions_of, runs_to_target, way_holds, way_fault, written_reply, written_list, end_of};

use crate::node::{Node, Way};
use domain::model::StateModel;
use domain::refusal::Refusal;

// Where the links from a number end, and how many they are.
#[derive(Clone, Copy)]
pub(crate) struct Traced {
    pub(crate) links: usize,
    pub(crate) root: usize,
}

// The number that a link leads to from a number, if it is a lower one. A link that is not to a lower number is not taken.
fn lower<S>(nodes: &[Node<S>], number: usize) -> Option<usize>
    requires { number < length nodes.now }
    ensures { result ≡ lower nodes.now number }
{
    let parent = nodes[number].parent;
    (parent < number).then_some(parent)
}

// Follows the links from number `from` back to 0, or to a link that is not to a lower number. One walk tells both, how
// many links there are and where they end. It is a loop, since `count` and `last` ask for an iterator that ends, and
// `successors` is endless by its contract.
pub(crate) fn trace_back<S>(nodes: &[Node<S>], from: usize) -> Traced
    requires { from < length nodes.now }
    ensures links { result.links ≡ length (way_to nodes.now from from) }
    ensures root { result.root ≡ root nodes.now from from }
    ensures few { result.links ≤ from }
{
    let mut root = from;
    let mut links = 0;
    while let Some(parent) = lower(nodes, root) {
        root = parent;
        links += 1;
    }
    Traced { links, root }
}

// A way in the nodes of a search of the model, once its links are seen to be there, and as many as its length says.
#[derive(Drop)]
struct Trail<'a, D: StateModel> {
    model: &'a D,
    nodes: &'a [Node<D::State>],
    way: &'a Way,
    ghost there: { way.now.parent < length nodes.now },
    ghost long: { length (actions_of nodes.now way.now) ≡ way.now.length },
}

impl<'a, D: StateModel> Trail<'a, D> {
    // The way, if its links are there and lead back to 0, it has its length, runs and ends in a target.
    fn holding(model: &'a D, nodes: &'a [Node<D::State>], way: &'a Way) -> Option<Trail<'a, D>>
        ensures { MatchOption result (way_holds (D.meaning model.now) nodes.now way.now ≡ false) (λ t. (way_holds (D.meaning model.now) nodes.now way.now ≡ true) × (t.nodes.now ≡ nodes.now) × (t.way.now ≡ way.now)) }
    {
        if way.parent >= nodes.len() {
            return None;
        }
        let back = trace_back(nodes, way.parent);
        if back.root != 0 || back.links + 1 != way.length {
            return None;
        }
        let trail = Trail { model, nodes, way };
        trail.leads_to_target().then_some(trail)
    }

    // The action of a step, counted from 0: found by going back from the way's end.
    fn action_at(&self, step: usize) -> usize
        requires { step < self.now.way.now.length }
        ensures { result ≡ slice_index (actions_of self.now.nodes.now self.now.way.now) step }
    {
        let mut link = self.way.last();
        for _ in step..self.way.length - 1 {
            link = self.nodes[link.parent].link();
        }
        link.action
    }

    // The way runs from the model's start and ends in a target.
    fn leads_to_target(&self) -> bool
        ensures { result ≡ runs_to_target (D.meaning self.now.model.now) (D.meaning self.now.model.now).start (actions_of self.now.nodes.now self.now.way.now) }
    {
        let mut state = self.model.start();
        for step in 0..self.way.length {
            let action = self.action_at(step);
            if !self.model.applies(state, action) {
                return false;
            }
            state = self.model.successor(state, action);
        }
        self.model.is_target(state)
    }

    // Writes the way's actions from the beginning of the list on.
    fn write(&self, list: &mut [usize])
        requires { self.now.way.now.length ≤ length list.old }
        ensures { list.new ≡ actions_of self.now.nodes.now self.now.way.now ++ drop self.now.way.now.length list.old }
    {
        for (step, place) in list[..self.way.length].iter_mut().enumerate() {
            *place = self.action_at(step);
        }
    }
}

// Writes a found way into the beginning of a lent list, once it is seen to hold: its links are there and lead back
// to 0, it has its length, runs from the model's start and ends in a target. A refusal writes nothing.
pub fn write_way<D: StateModel>(
    model: &D,
    nodes: &[Node<D::State>],
    way: &Way,
    list: &mut [usize],
) -> Result<usize, Refusal>
    ensures reply { result ≡ written_reply (way_fault (D.meaning model.now) nodes.now way.now (length list.old)) way.now.length }
    ensures after { list.new ≡ written_list (way_fault (D.meaning model.now) nodes.now way.now (length list.old)) (actions_of nodes.now way.now) list.old }
{
    if list.len() < way.length {
        return Err(Refusal::PlanFull);
    }
    let trail = Trail::holding(model, nodes, way).ok_or(Refusal::BrokenWay)?;
    trail.write(list);
    Ok(way.length)
}

// Where a list of actions leads from a state: each in turn, and one that does not apply leaves the state.
pub fn follow<D: StateModel>(model: &D, from: D::State, actions: &[usize]) -> D::State
    ensures { result ≡ end_of (D.meaning model.now) from actions.now }
{
    let mut state = from;
    for action in actions {
        state = model.successor(state, *action);
    }
    state
}
