// How the measure by feature values is made, and what it answers.
ghost use Rattle.std.specs.Prelude.{◌≡◌, ◌<◌, ◌≤◌, Some, None, Ok, Err, MatchOption};
ghost use Rattle.domain.specs.Atoms.{members};
ghost use Rattle.novelty.specs.Values.{base_of, value_key, value_keys, value_count, values_fault, KeyForValues};
ghost use Rattle.novelty.specs.ValuesMade.{features_of};
ghost use Rattle.novelty.specs.Valued.{key_below};
ghost use Rattle.std.proofs.Common.{rules, arith};

use crate::marks::{is_unmarked, put_mark};
use crate::measure::{MOST_KEYS, Measure};
use crate::values::FeatureValues;
use domain::atoms::AtomSet;
use domain::refusal::Refusal;
use sketch::feature::Feature;
use sketch::held::Held;

// No measure is by more features.
const MAX_FEATURES: usize = 8;

// How many values the feature can have.
fn base(feature: &Feature) -> usize
    ensures value { result ≡ base_of feature.now }
    ensures small { result ≤ 257 }
{
    feature.top() + 1
}

// How many keys the features give, unless a measure may not have so many.
fn count_keys(features: &[Feature]) -> Option<usize>
    ensures { MatchOption result (65536 < value_count features.now) (λ keys. (keys ≡ value_count features.now) × (keys ≤ 65536)) }
{
    let mut keys = 1;
    for feature in features {
        keys *= base(feature);
        if keys > MOST_KEYS {
            return None;
        }
    }
    Some(keys)
}

// The key where the atoms of `truths` are the true ones.
fn key_of(features: &[Feature], truths: &AtomSet) -> usize
    requires { value_count features.now ≤ 65536 }
    ensures { result ≡ value_key features.now (members truths.now) }
{
    let mut key = 0;
    for feature in features.iter().rev() {
        key = feature.value(truths) + base(feature) * key;
    }
    key
}

impl FeatureValues {
    // The measure by these features, or why there is none.
    #[tactic(auto, using(crate::specs::Valued::key_for_values))]
    pub fn new(features: &[Feature]) -> Result<FeatureValues, Refusal>
        ensures answer { elim result [ Ok m ↦ (values_fault features.now ≡ None) × (features_of m ≡ features.now) | Err e ↦ values_fault features.now ≡ Some e ] }
        ensures distinct { KeyForValues features.now }
    {
        if features.len() > MAX_FEATURES {
            return Err(Refusal::Limit {
                place: MAX_FEATURES,
            });
        }
        let keys = count_keys(features).ok_or(Refusal::ManyKeys)?;
        Ok(FeatureValues {
            features: Held::first(features, Feature::blank()),
            keys,
        })
    }

    // The key where the atoms of `truths` are the true ones.
    fn key(&self, truths: &AtomSet) -> usize
        ensures { result ≡ value_key (features_of self.now) (members truths.now) }
    {
        key_of(self.features.as_slice(), truths)
    }
}

impl Measure for FeatureValues {
    ghost total = { λ m. value_count (features_of m) };

    ghost keys = { λ m. value_keys (features_of m) };

    ghost limit = { Prim.search rules };

    ghost below = { λ m atoms rising. (key_below (features_of m) atoms, tt) };

    ghost some = { Prim.search rules };

    fn count(&self) -> usize {
        self.keys
    }

    fn is_novel(&self, atoms: &AtomSet, marks: &[u8]) -> bool {
        is_unmarked(marks, self.key(atoms))
    }

    fn mark(&self, atoms: &AtomSet, marks: &mut [u8]) {
        put_mark(marks, self.key(atoms));
    }
}
