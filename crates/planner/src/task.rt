// The task of a search.
ghost use Rattle.std.specs.Prelude.{◌<◌};

use domain::model::StateModel;
use novelty::measure::Measure;

// What a search is given: the model that it searches, and a measure with how many keys it has.
// No `impl Model`: what contracts see of it holds a meaning and keys, which are functions, and a function has no code.
#[derive(Drop)]
pub(crate) struct Task<'a, D: StateModel, M: Measure> {
    pub(crate) model: &'a D,
    pub(crate) measure: &'a M,
    pub(crate) count: usize,
    ghost some: { 0 < count },
}
