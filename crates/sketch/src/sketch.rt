// A sketch that the sieve has accepted.
ghost use Rattle.std.specs.Prelude.{◌≡◌};
ghost use Rattle.sketch.specs.Feature.{kinds_of};
ghost use Rattle.sketch.specs.Held.{list_of};
ghost use Rattle.sketch.specs.Sieve.{rules_left};

use crate::feature::Feature;
use crate::held::Held;
use crate::rule::Rule;

pub mod ask;
pub mod make;

#[derive(Clone, Copy)]
pub struct Sketch {
    features: Held<Feature, 8>,
    rules: Held<Rule, 16>,
    ghost accepted: { rules_left (kinds_of (list_of features)) (list_of rules) ≡ 0 },
}
