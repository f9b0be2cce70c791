// The sieve: strikes one rule after the other, and tells how many it cannot strike.
ghost use Rattle.std.specs.Prelude.{◌≡◌, ◌≤◌, length};
ghost use Rattle.sketch.specs.Feature.{kinds_of};
ghost use Rattle.sketch.specs.Sieve.{rules_left};

use crate::feature::Feature;
use crate::rule::{Entry, Rule};

// Features, rules over them, and of each rule whether it is left.
#[derive(Drop)]
struct Sieve<'a> {
    features: &'a [Feature],
    rules: &'a [Rule],
    left: [bool; 16],
    ghost few_features: { length features.now ≤ 8 },
    ghost few_rules: { length rules.now ≤ 16 },
    ghost wide: { length left ≡ 16 },
}

impl<'a> Sieve<'a> {
    ghost use Rattle.std.specs.Prelude.{Bool, ◌<◌, MatchOption};
    ghost use Rattle.sketch.specs.Below.{some_below};
    ghost use Rattle.sketch.specs.Sieve.{strikes, whole, flagged};
    ghost use Rattle.sketch.specs.Sifted.{kinds_in, left_in, some_left, justified_in, lowest_in};
    ghost use Rattle.sketch.specs.declared.rule.Entry.{Entry};

    fn new(features: &'a [Feature], rules: &'a [Rule]) -> Sieve<'a>
        requires { (length features.now ≤ 8) × (length rules.now ≤ 16) }
        ensures features { result.features.now ≡ features.now }
        ensures rules { result.rules.now ≡ rules.now }
        ensures left { left_in result ≡ whole rules.now }
    {
        Sieve {
            features,
            rules,
            left: [true; 16],
        }
    }

    // Of each rule whether it is left, and nothing past the rules.
    fn flags(&self) -> &[bool]
        ensures { result.now ≡ left_in self.now }
    {
        &self.left[..self.rules.len()]
    }

    // Whether the entry of the feature passes the test in some rule that is left.
    fn some_left<F: Fn(Entry) -> bool>(&self, feature: usize, test: F) -> bool
        requires inside { feature < 8 }
        requires callable { F.IsAlwaysCallable test }
        ensures { (p : Entry → Bool) → ((e : Entry) (r : Bool) → F.post test e r → r ≡ p e) → result ≡ some_left p self.now feature }
    {
        self.rules
            .iter()
            .zip(self.flags())
            .any(|(rule, left)| *left && test(rule.entries[feature]))
    }

    // Whether the feature justifies that the rule is struck. The other rules are looked at only where the entry surely moves
    // the feature, and for what moves it back.
    fn is_justified(&self, rule: &Rule, feature: usize) -> bool
        requires { feature < length self.now.features.now }
        ensures { result ≡ justified_in self.now rule.now feature }
    {
        let kind = self.features[feature].kind;
        let entry = rule.entries[feature];
        let raised = entry.surely_lowers(kind)
            && self.some_left(feature, |other| other.may_raise(kind));
        let lowered = entry.surely_raises(kind)
            && self.some_left(feature, |other| other.may_lower(kind));
        entry.moves_one_way(kind, raised, lowered)
    }

    // Whether some feature justifies that the rule is struck.
    fn is_strikable(&self, rule: &Rule) -> bool
        ensures { result ≡ some_below (justified_in self.now rule.now) (length (kinds_in self.now)) }
    {
        (0..self.features.len()).any(|feature| self.is_justified(rule, feature))
    }

    // The lowest rule that is left and can be struck.
    fn lowest_strikable(&self) -> Option<usize>
        ensures { let n = length self.now.rules.now in MatchOption result (lowest_in self.now ≡ n) (λ i. (i < n) × (lowest_in self.now ≡ i)) }
    {
        self.rules
            .iter()
            .zip(self.flags())
            .position(|(rule, left)| *left && self.is_strikable(rule))
    }

    // Strikes rules until none can be struck.
    fn strike_all(&mut self)
        ensures features { self.new.features.now ≡ self.old.features.now }
        ensures rules { self.new.rules.now ≡ self.old.rules.now }
        ensures left { let n = length self.old.rules.now in left_in self.new ≡ strikes (kinds_in self.old) self.old.rules.now n (left_in self.old) }
    {
        while let Some(i) = self.lowest_strikable() {
            self.left[i] = false;
        }
    }

    fn count_left(&self) -> usize
        ensures { result ≡ flagged (left_in self.now) }
    {
        self.flags().iter().filter(|left| **left).count()
    }
}

// How many rules the sieve leaves.
pub(crate) fn rules_left(features: &[Feature], rules: &[Rule]) -> usize
    requires { (length features.now ≤ 8) × (length rules.now ≤ 16) }
    ensures { result ≡ rules_left (kinds_of features.now) rules.now }
{
    let mut sieve = Sieve::new(features, rules);
    sieve.strike_all();
    sieve.count_left()
}
