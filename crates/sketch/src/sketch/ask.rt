// What a sketch tells of states, by their true atoms.
ghost use Rattle.std.specs.Prelude.{◌≡◌, ℕ, length};
ghost use Rattle.domain.specs.Atoms.{members};
ghost use Rattle.sketch.specs.Feature.{kinds_of};
ghost use Rattle.sketch.specs.Rule.{accepts, value_at};
ghost use Rattle.sketch.specs.Sketch.{accepts_step, features_of, rules_of, valuation};

use crate::rule::Rule;
use crate::sketch::Sketch;
use domain::atoms::AtomSet;
use std::array;

impl Sketch {
    pub fn feature_count(&self) -> usize
        ensures { result ≡ length (features_of self.now) }
    {
        self.features.as_slice().len()
    }

    pub fn rule_count(&self) -> usize
        ensures { result ≡ length (rules_of self.now) }
    {
        self.rules.as_slice().len()
    }

    // The value of the feature i where the atoms of `truths` are the true ones; 0 past the features.
    pub fn value(&self, i: usize, truths: &AtomSet) -> usize
        ensures { result ≡ value_at (valuation self.now (members truths.now)) i }
    {
        self.features
            .as_slice()
            .get(i)
            .map_or(0, |feature| feature.value(truths))
    }

    // The values of the features, and 0 past them.
    fn values(&self, truths: &AtomSet) -> [usize; 8]
        ensures { (i : ℕ) → value_at result i ≡ value_at (valuation self.now (members truths.now)) i }
    {
        array::from_fn(|i| self.value(i, truths))
    }

    // Whether the rule accepts the values `before` and `after`.
    fn rule_accepts(&self, rule: &Rule, before: &[usize; 8], after: &[usize; 8]) -> bool
        ensures { result ≡ accepts (kinds_of (features_of self.now)) rule.now before.now after.now }
    {
        let values = before.iter().zip(after);
        let features = self.features.as_slice().iter().zip(&rule.entries);
        features.zip(values).all(|((feature, entry), (before, after))| {
            entry.accepts(feature.kind, *before, *after)
        })
    }

    // Whether some rule accepts the step between two states with these true atoms.
    pub fn accepts(&self, from: &AtomSet, to: &AtomSet) -> bool
        ensures { result ≡ accepts_step self.now (members from.now) (members to.now) }
    {
        let before = self.values(from);
        let after = self.values(to);
        self.rules
            .as_slice()
            .iter()
            .any(|rule| self.rule_accepts(rule, &before, &after))
    }
}
