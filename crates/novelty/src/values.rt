// The measure by feature values: a set of atoms has one key, made of the values of all features.
ghost use Rattle.std.specs.Prelude.{◌≡◌, ◌≤◌};
ghost use Rattle.sketch.specs.Held.{list_of};
ghost use Rattle.novelty.specs.Values.{value_count};

use sketch::feature::Feature;
use sketch::held::Held;

pub mod measure;

#[derive(Clone, Copy, Debug)]
pub struct FeatureValues {
    features: Held<Feature, 8>,
    keys: usize,
    ghost counted: { keys ≡ value_count (list_of features) },
    ghost limit: { keys ≤ 65536 },
}
