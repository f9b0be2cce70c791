// A subproblem: any model from one of its states on, until a target of the model or a subgoal of a sketch is met.
ghost use Rattle.std.specs.Prelude.{◌≡◌};
ghost use Rattle.sketch.specs.Sketch.{accepts_step};
ghost use Rattle.sketch.specs.Subproblem.{subproblem, subproblem_lawful};

use crate::sketch::Sketch;
use domain::atoms::AtomSet;
use domain::model::StateModel;

#[derive(Drop)]
pub struct Subproblem<'a, D: StateModel> {
    below: &'a D,
    sketch: &'a Sketch,
    origin: D::State,
}

impl<'a, D: StateModel> Subproblem<'a, D> {
    // The model `below` from the state `origin` on.
    pub fn new(below: &'a D, sketch: &'a Sketch, origin: D::State) -> Subproblem<'a, D>
        ensures { subproblem (D.meaning result.below.now) result.sketch.now result.origin ≡ subproblem (D.meaning below.now) sketch.now origin }
    {
        Subproblem {
            below,
            sketch,
            origin,
        }
    }

    // Whether some rule of the sketch accepts the step from the origin to a state.
    fn is_subgoal(&self, state: D::State) -> bool
        ensures { result ≡ accepts_step self.now.sketch.now ((D.meaning self.now.below.now).truths self.now.origin) ((D.meaning self.now.below.now).truths state) }
    {
        let from = self.below.truths(self.origin);
        let to = self.below.truths(state);
        self.sketch.accepts(&from, &to)
    }
}

impl<'a, D: StateModel> StateModel for Subproblem<'a, D> {
    type State = D::State;

    ghost meaning = { λ m. subproblem (D.meaning m.below.now) m.sketch.now m.origin };

    ghost lawful = { λ m. subproblem_lawful (D.meaning m.below.now) m.sketch.now m.origin (D.lawful m.below.now) };

    fn atoms(&self) -> usize {
        self.below.atoms()
    }

    fn actions(&self) -> usize {
        self.below.actions()
    }

    fn start(&self) -> D::State {
        self.origin
    }

    fn truths(&self, state: D::State) -> AtomSet {
        self.below.truths(state)
    }

    fn is_target(&self, state: D::State) -> bool {
        self.below.is_target(state) || self.is_subgoal(state)
    }

    fn applies(&self, state: D::State, action: usize) -> bool {
        self.below.applies(state, action)
    }

    fn successor(&self, state: D::State, action: usize) -> D::State {
        self.below.successor(state, action)
    }
}
