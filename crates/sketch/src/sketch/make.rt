// How a sketch is made: only from features and rules that the sieve accepts.
ghost use Rattle.std.specs.Prelude.{◌≡◌, ◌<◌, ◌≤◌, length, IfOk, Some, None, MatchOption, MatchResult};
ghost use Rattle.sketch.specs.Fault.{rule_fits, first_unfit, sketch_fault};
ghost use Rattle.sketch.specs.Feature.{kinds_of};
ghost use Rattle.sketch.specs.Laws.{NoReturn, NoStandstill};
ghost use Rattle.sketch.specs.Sieve.{rules_left};
ghost use Rattle.sketch.specs.Sketch.{features_of, rules_of};

use crate::feature::Feature;
use crate::held::Held;
use crate::rule::Rule;
use crate::sieve;
use crate::sketch::Sketch;
use domain::refusal::Refusal;

// Whether the rule says nothing past the `count` features.
fn fits(count: usize, rule: &Rule) -> bool
    ensures { result ≡ rule_fits count rule.now }
{
    rule.entries
        .iter()
        .skip(count)
        .all(|entry| entry.is_silent())
}

// The lowest rule that does not fit.
fn find_unfit(count: usize, rules: &[Rule]) -> Option<usize>
    ensures { MatchOption result (first_unfit count rules.now ≡ length rules.now) (λ i. (i < length rules.now) × (first_unfit count rules.now ≡ i)) }
{
    rules.iter().position(|rule| !fits(count, rule))
}

// The sketch of features and rules that the sieve accepts: along its rules no run returns.
fn hold(features: &[Feature], rules: &[Rule]) -> Sketch
    requires few { (length features.now ≤ 8) × (length rules.now ≤ 16) }
    requires accepted { rules_left (kinds_of features.now) rules.now ≡ 0 }
    ensures given { (features_of result ≡ features.now) × (rules_of result ≡ rules.now) }
    ensures no_return { NoReturn (kinds_of (features_of result)) (rules_of result) }
    ensures no_standstill { NoStandstill (kinds_of (features_of result)) (rules_of result) }
{
    Sketch {
        features: Held::first(features, Feature::blank()),
        rules: Held::first(rules, Rule::blank()),
    }
}

impl Sketch {
    // The sketch of the features and the rules, or the first fault. Along its rules no run returns.
    pub fn new(features: &[Feature], rules: &[Rule]) -> Result<Sketch, Refusal>
        ensures faults { MatchResult result (λ _. sketch_fault features.now rules.now ≡ None) (λ e. sketch_fault features.now rules.now ≡ Some e) }
        ensures given { IfOk result (λ s. (features_of s ≡ features.now) × (rules_of s ≡ rules.now)) }
        ensures no_return { IfOk result (λ s. NoReturn (kinds_of (features_of s)) (rules_of s)) }
        ensures no_standstill { IfOk result (λ s. NoStandstill (kinds_of (features_of s)) (rules_of s)) }
    {
        if let Some(place) = find_unfit(features.len(), rules) {
            return Err(Refusal::Range { place });
        }
        if features.len() > 8 {
            return Err(Refusal::Limit { place: 8 });
        }
        if rules.len() > 16 {
            return Err(Refusal::Limit { place: 16 });
        }
        let left = sieve::rules_left(features, rules);
        if left > 0 {
            return Err(Refusal::RulesLeft { rules: left });
        }
        Ok(hold(features, rules))
    }
}
