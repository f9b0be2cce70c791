// A run over a model and an accepted sketch. It is made of any model and any measure; the plan list, the places for
// states and the marks are the caller's.
ghost use Rattle.std.specs.Prelude.{◌≡◌, ◌+◌, ◌*◌, ◌≤◌, Some};
ghost use Rattle.runs.specs.Charge.{charge};
ghost use Rattle.planner.specs.Stepwise.{InBounds};

use domain::model::StateModel;
use planner::stepwise::Search;
use sketch::sketch::Sketch;

pub mod adopt;
pub mod ask;
pub mod begin;
pub mod make;
pub mod work;

// `current` is where the adopted segments lead, `length` how many steps they have, `effort` the expanded states of the
// ended searches, `searches` the number of the latest search.
// Places for states and marks are lent to each call as two slices, and not as one value: adopt is lent no marks.
// The bounds of the open search are a fact of the run too: of the search itself callers see where it stands, and no fact.
// No `impl Model`: what contracts see of a run holds the model's meaning, which is functions, and a function has no code.
#[derive(Drop)]
pub struct Run<D: StateModel, M> {
    model: D,
    sketch: Sketch,
    current: D::State,
    effort: usize,
    length: usize,
    searches: usize,
    open: Option<Search<M>>,
    ghost few: { searches ≤ 65535 },
    ghost short: { length ≤ 4096 },
    ghost charged: { effort + charge «open» ≤ searches * 65536 },
    ghost bounded: { (search : _) → «open» ≡ Some search → InBounds search },
}
