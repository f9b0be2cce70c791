// The questions, which alter nothing.
ghost use Rattle.std.specs.Prelude.{◌≡◌};
ghost use Rattle.runs.specs.Ask.{step_reply};

use crate::run::Run;
use domain::model::StateModel;
use domain::refusal::Refusal;
use novelty::measure::Measure;

impl<D: StateModel, M: Measure + Drop> Run<D, M> {
    // The expanded states of all ended searches.
    pub fn effort(&self) -> usize
        ensures { result ≡ self.now.effort }
    {
        self.effort
    }

    // How many steps the adopted segments have.
    pub fn plan_length(&self) -> usize
        ensures { result ≡ self.now.length }
    {
        self.length
    }

    // Where the adopted segments lead.
    pub fn current(&self) -> D::State
        ensures { result ≡ self.now.current }
    {
        self.current
    }

    // Whether the adopted segments lead to a target of the model.
    pub fn at_target(&self) -> bool
        ensures { result ≡ (D.meaning self.now.model).target self.now.current }
    {
        self.model.is_target(self.current)
    }

    // The action of a step of the plan, read from the caller's list.
    pub fn step(&self, plan: &[usize], step: usize) -> Result<usize, Refusal>
        ensures { result ≡ step_reply self.now.length plan.now step }
    {
        let steps = &plan[..plan.len().min(self.length)];
        steps.get(step).copied().ok_or(Refusal::NoStep)
    }
}
