// The tables of a text as they are filled, and what one line adds to each.
ghost use Rattle.std.specs.Prelude.{◌≡◌, ◌<◌, ◌≤◌, take, is_some};
ghost use Rattle.std.specs.List.{list_any};
ghost use Rattle.problem.specs.Tables.{no_atoms, no_features, no_rules, one_past, feature_count, rule_count, rule_of, features_with_blanks, rules_with_blanks, atom_added, action_added, feature_added, rule_added, other_kind, both_named, with_role};

use crate::role::Role;
use domain::atoms::AtomSet;
use domain::strips::Action;
use sketch::feature::{Feature, Kind};
use sketch::rule::{Condition, Effect, Entry, Rule};

pub(crate) const MAX_FEATURES: usize = 8;

pub(crate) const MAX_RULES: usize = 16;

// Whether the next atom is true at the start, and whether it is a goal.
#[derive(Clone, Copy)]
pub struct AtomRow {
    pub start: bool,
    pub goal: bool,
}

// An atom that has a role in an action.
#[derive(Clone, Copy)]
pub struct ActionRow {
    pub action: usize,
    pub role: Role,
    pub atom: u8,
}

// An atom of a feature of a kind.
#[derive(Clone, Copy)]
pub struct FeatureRow {
    pub feature: usize,
    pub kind: Kind,
    pub atom: u8,
}

// What a rule says of a feature.
#[derive(Clone, Copy)]
pub struct RuleRow {
    pub rule: usize,
    pub feature: usize,
    pub entry: Entry,
}

#[derive(Clone, Copy)]
pub struct AtomTable {
    pub count: usize,
    pub start: AtomSet,
    pub goal: AtomSet,
}

// The features that were named, at their numbers.
#[derive(Clone, Copy)]
pub struct FeatureTable {
    pub features: [Option<Feature>; MAX_FEATURES],
}

// What was said of each rule and each feature.
#[derive(Clone, Copy)]
pub struct RuleTable {
    pub entries: [[Option<Entry>; MAX_FEATURES]; MAX_RULES],
}

impl AtomTable {
    pub(crate) fn new() -> AtomTable
        ensures { result ≡ no_atoms }
    {
        AtomTable {
            count: 0,
            start: AtomSet::empty(),
            goal: AtomSet::empty(),
        }
    }

    pub(crate) fn add(&mut self, row: AtomRow)
        requires { self.old.count < 256 }
        ensures { self.new ≡ atom_added self.old row }
    {
        let atom = self.count as u8;
        if row.start {
            self.start.insert(atom);
        }
        if row.goal {
            self.goal.insert(atom);
        }
        self.count += 1;
    }
}

impl ActionRow {
    // The action with the atom in its role.
    fn given_to(&self, action: Action) -> Action
        ensures { result ≡ with_role action self.now.role self.now.atom }
    {
        let mut given = action;
        match self.role {
            Role::Precondition => given.preconditions.insert(self.atom),
            Role::Addition => given.additions.insert(self.atom),
            Role::Deletion => given.deletions.insert(self.atom),
        }
        given
    }

    // Adds the atom to its action, where there is a place for it.
    pub(crate) fn add_to(&self, actions: &mut [Action])
        ensures { actions.new ≡ action_added actions.old self.now }
    {
        if self.action < actions.len() {
            // by index: a write through what `get_mut` gives tells the proof nothing of the elements
            actions[self.action] = self.given_to(actions[self.action]);
        }
    }
}

impl FeatureTable {
    pub(crate) fn new() -> FeatureTable
        ensures { result ≡ no_features }
    {
        FeatureTable {
            features: [None; MAX_FEATURES],
        }
    }

    // One above the highest number that was named.
    pub(crate) fn count(&self) -> usize
        ensures value { result ≡ feature_count self.now }
        ensures below { result ≤ 8 }
    {
        self.features
            .iter()
            .rposition(|feature| feature.is_some())
            .map_or(0, |last| last + 1)
    }

    // The features up to the highest that was named, at the first of the places: those that were not named are blank.
    pub(crate) fn list<'a>(&self, places: &'a mut [Feature; MAX_FEATURES]) -> &'a [Feature]
        ensures { result.now ≡ take (feature_count self.now) (features_with_blanks self.now) }
    {
        let count = self.count();
        for (number, place) in places[..count].iter_mut().enumerate() {
            *place = self.features[number].unwrap_or(Feature::blank());
        }
        &places[..count]
    }

    // Whether the feature was named under another kind.
    pub(crate) fn has_other_kind(&self, feature: usize, kind: Kind) -> bool
        ensures { result ≡ other_kind self.now feature kind }
    {
        feature < MAX_FEATURES && self.features[feature].is_some_and(|named| named.kind != kind)
    }

    pub(crate) fn add(&mut self, row: FeatureRow)
        requires { row.feature < 8 }
        ensures { self.new ≡ feature_added self.old row }
    {
        let mut atoms = self.features[row.feature].unwrap_or(Feature::blank()).atoms;
        atoms.insert(row.atom);
        self.features[row.feature] = Some(Feature {
            kind: row.kind,
            atoms,
        });
    }
}

// Whether a rule was named, by what was said of each feature.
fn is_named(entries: &[Option<Entry>; MAX_FEATURES]) -> bool
    ensures { result ≡ list_any is_some entries.now }
{
    entries.iter().any(|entry| entry.is_some())
}

// The rule of what was said of each feature: of the others it says nothing.
fn rule_of(entries: [Option<Entry>; MAX_FEATURES]) -> Rule
    ensures { result ≡ rule_of entries }
{
    Rule {
        entries: entries.map(|entry| {
            entry.unwrap_or(Entry {
                when: Condition::Any,
                then: Effect::Same,
            })
        }),
    }
}

impl RuleTable {
    pub(crate) fn new() -> RuleTable
        ensures { result ≡ no_rules }
    {
        RuleTable {
            entries: [[None; MAX_FEATURES]; MAX_RULES],
        }
    }

    // One above the highest number that was named.
    pub(crate) fn count(&self) -> usize
        ensures value { result ≡ rule_count self.now }
        ensures below { result ≤ 16 }
    {
        self.entries
            .iter()
            .rposition(is_named)
            .map_or(0, |last| last + 1)
    }

    // The rules up to the highest that was named, at the first of the places: those that were not named say nothing.
    pub(crate) fn list<'a>(&self, places: &'a mut [Rule; MAX_RULES]) -> &'a [Rule]
        ensures { result.now ≡ take (rule_count self.now) (rules_with_blanks self.now) }
    {
        let count = self.count();
        for (number, place) in places[..count].iter_mut().enumerate() {
            *place = rule_of(self.entries[number]);
        }
        &places[..count]
    }

    // Whether the rule and the feature were named together.
    pub(crate) fn has_both(&self, rule: usize, feature: usize) -> bool
        ensures { result ≡ both_named self.now rule feature }
    {
        rule < MAX_RULES && feature < MAX_FEATURES && self.entries[rule][feature].is_some()
    }

    pub(crate) fn add(&mut self, row: RuleRow)
        requires { (row.rule < 16) × (row.feature < 8) }
        ensures { self.new ≡ rule_added self.old row }
    {
        let mut entries = self.entries[row.rule];
        entries[row.feature] = Some(row.entry);
        self.entries[row.rule] = entries;
    }
}
