// One novelty search: the kernel, over any state model and any measure, of whose keys there are `count`.
ghost use Rattle.std.specs.Prelude.{◌≡◌, ◌+◌, ◌^◌, ◌<◌, ◌≤◌, false, true, length, MatchResult};
ghost use Rattle.domain.specs.declared.refusal.Refusal.TheVariants.{FewPlaces};
ghost use Rattle.planner.specs.Search.{snap, given, tried, tried_from, expand_next, goes_on, advanced, begun};
ghost use Rattle.planner.specs.Stepwise.{lacks};

use crate::node::{Link, Node, Progress};
use crate::task::Task;
use domain::model::StateModel;
use domain::refusal::Refusal;
use novelty::measure::Measure;

// Nodes, marks and progress are lent one by one: with a struct of them each contract would also say, of either slice,
// that it stays the same one and keeps its length.
impl<'a, D: StateModel, M: Measure> Task<'a, D, M> {
    // The search of a model by a measure, and by all of its keys.
    pub(crate) fn new(model: &'a D, measure: &'a M) -> Task<'a, D, M>
        ensures model { result.model.now ≡ model.now }
        ensures measure { result.measure.now ≡ measure.now }
        ensures count { result.count ≡ M.total measure.now }
    {
        Task {
            model,
            measure,
            count: measure.count(),
        }
    }

    // Refuses memory with fewer places for states or for marks than keys.
    pub(crate) fn check_places(&self, nodes: &[Node<D::State>], marks: &[u8]) -> Result<(), Refusal>
        ensures { MatchResult result (λ _. lacks self.now.count (length nodes.now) (length marks.now) ≡ false) (λ e. (lacks self.now.count (length nodes.now) (length marks.now) ≡ true) × (e ≡ FewPlaces)) }
    {
        if nodes.len() < self.count || marks.len() < self.count {
            return Err(Refusal::FewPlaces);
        }
        Ok(())
    }

    // Tries one action in `state`, the state of the number under expansion.
    fn try_action(
        &self,
        nodes: &mut [Node<D::State>],
        marks: &mut [u8],
        progress: &mut Progress,
        state: D::State,
        action: usize,
    )
        requires { self.now.count ≤ length nodes.old }
        ensures { snap nodes.new marks.new progress.new ≡ tried (given self.now) state (snap nodes.old marks.old progress.old) action }
    {
        if !self.model.applies(state, action) {
            return;
        }
        let next = self.model.successor(state, action);
        if self.model.is_target(next) {
            progress.met = Some(Link {
                parent: progress.expanded,
                action,
            });
            return;
        }
        let atoms = self.model.truths(next);
        if self.measure.is_novel(&atoms, marks) && progress.kept < self.count {
            nodes[progress.kept] = Node {
                state: next,
                parent: progress.expanded,
                action,
            };
            self.measure.mark(&atoms, marks);
            progress.kept += 1;
        }
    }

    // Tries the actions in rising order in `state`, the state of the number under expansion, until a target is met.
    fn try_actions(
        &self,
        nodes: &mut [Node<D::State>],
        marks: &mut [u8],
        progress: &mut Progress,
        state: D::State,
    )
        requires { self.now.count ≤ length nodes.old }
        ensures { snap nodes.new marks.new progress.new ≡ tried_from (given self.now) state (snap nodes.old marks.old progress.old) 0 (given self.now).problem.actions }
    {
        let actions = self.model.actions();
        for action in 0..actions {
            self.try_action(nodes, marks, progress, state, action);
            if progress.met.is_some() {
                return;
            }
        }
    }

    // Expands the lowest waiting number.
    fn expand(&self, nodes: &mut [Node<D::State>], marks: &mut [u8], progress: &mut Progress)
        requires places { self.now.count ≤ length nodes.old }
        requires waiting { progress.old.expanded < self.now.count }
        ensures { snap nodes.new marks.new progress.new ≡ expand_next (given self.now) (snap nodes.old marks.old progress.old) }
    {
        let state = nodes[progress.expanded].state;
        self.try_actions(nodes, marks, progress, state);
        progress.expanded += 1;
    }

    // Expands at most `budget` states, while none has met a target and one waits.
    pub(crate) fn advance(
        &self,
        nodes: &mut [Node<D::State>],
        marks: &mut [u8],
        progress: &mut Progress,
        budget: usize,
    )
        requires places { self.now.count ≤ length nodes.old }
        requires held { progress.old.kept ≤ self.now.count }
        ensures { snap nodes.new marks.new progress.new ≡ advanced (given self.now) budget (snap nodes.old marks.old progress.old) }
    {
        for _ in 0..budget {
            if !progress.goes_on() {
                return;
            }
            self.expand(nodes, marks, progress);
        }
    }

    // Keeps the start as number 0, with its keys alone marked.
    pub(crate) fn begin(&self, nodes: &mut [Node<D::State>], marks: &mut [u8]) -> Progress
        requires nodes { self.now.count ≤ length nodes.old }
        requires marks { self.now.count ≤ length marks.old }
        ensures { snap nodes.new marks.new result ≡ begun (given self.now) nodes.old marks.old }
    {
        marks[..self.count].fill(0);
        let start = self.model.start();
        self.measure.mark(&self.model.truths(start), marks);
        nodes[0] = Node::unlinked(start);
        Progress {
            expanded: 0,
            kept: 1,
            met: None,
        }
    }
}
