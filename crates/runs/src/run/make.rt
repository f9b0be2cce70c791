// How a run is made.
ghost use Rattle.std.specs.Prelude.{◌≡◌};
ghost use Rattle.runs.specs.Findings.{Always};
ghost use Rattle.runs.specs.Run.{view, fresh};

use crate::run::Run;
use domain::model::StateModel;
use novelty::measure::Measure;
use sketch::sketch::Sketch;

impl<D: StateModel, M: Measure + Drop> Run<D, M> {
    // A run from the model's start. After every list of calls on it the findings hold.
    pub fn new(model: D, sketch: Sketch) -> Run<D, M>
        ensures value { view result ≡ fresh (D.meaning model) sketch }
        ensures findings { Always M.keys M.total (view result) }
    {
        let current = model.start();
        Run {
            model,
            sketch,
            current,
            effort: 0,
            length: 0,
            searches: 0,
            open: None,
        }
    }
}
