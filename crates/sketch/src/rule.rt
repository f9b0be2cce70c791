// Rules: of each feature a condition on its value before a step, and an effect of the step on it.
ghost use Rattle.std.specs.Prelude.{◌≡◌};
ghost use Rattle.sketch.specs.Entry.{condition_char, condition_named, effect_char, effect_named};
ghost use Rattle.sketch.specs.Letter.{Reads, Writes};
ghost use Rattle.sketch.specs.Rule.{holds, follows, entry_accepts, silent, unnamed};
ghost use Rattle.sketch.specs.Sieve.{surely_lowers, surely_raises, may_raise, may_lower, one_way};

use crate::feature::Kind;
use crate::letter::UnknownLetter;

#[derive(Clone, Copy, PartialEq, Eq, Debug)]
pub enum Condition {
    // no condition
    Any,
    // the value is above zero
    Positive,
    // the value is zero
    Zero,
}

#[derive(Clone, Copy, PartialEq, Eq, Debug)]
pub enum Effect {
    // the value stays
    Same,
    // any value may follow
    Free,
    // a number rises, a Boolean is 1 afterwards
    Up,
    // a number falls, a Boolean is 0 afterwards
    Down,
}

// What a rule says of one feature.
#[derive(Clone, Copy, PartialEq, Eq, Debug)]
pub struct Entry {
    pub when: Condition,
    pub then: Effect,
}

// One entry for each feature; those past the features say nothing.
#[derive(Clone, Copy, PartialEq, Eq, Debug)]
pub struct Rule {
    pub entries: [Entry; 8],
}

impl TryFrom<char> for Condition {
    type Error = UnknownLetter;

    ghost try_from_gives = { Reads condition_char condition_named };

    fn try_from(letter: char) -> Result<Condition, UnknownLetter> {
        match letter {
            '.' => Ok(Condition::Any),
            '+' => Ok(Condition::Positive),
            '0' => Ok(Condition::Zero),
            _ => Err(UnknownLetter),
        }
    }
}

impl From<Condition> for char {
    ghost from_gives = { Writes condition_char condition_named };

    fn from(condition: Condition) -> char {
        match condition {
            Condition::Any => '.',
            Condition::Positive => '+',
            Condition::Zero => '0',
        }
    }
}

impl Condition {
    pub fn holds(self, value: usize) -> bool
        ensures { result ≡ holds self value }
    {
        match self {
            Condition::Any => true,
            Condition::Positive => value > 0,
            Condition::Zero => value == 0,
        }
    }
}

impl TryFrom<char> for Effect {
    type Error = UnknownLetter;

    ghost try_from_gives = { Reads effect_char effect_named };

    fn try_from(letter: char) -> Result<Effect, UnknownLetter> {
        match letter {
            '=' => Ok(Effect::Same),
            '?' => Ok(Effect::Free),
            '+' => Ok(Effect::Up),
            '-' => Ok(Effect::Down),
            _ => Err(UnknownLetter),
        }
    }
}

impl From<Effect> for char {
    ghost from_gives = { Writes effect_char effect_named };

    fn from(effect: Effect) -> char {
        match effect {
            Effect::Same => '=',
            Effect::Free => '?',
            Effect::Up => '+',
            Effect::Down => '-',
        }
    }
}

impl Effect {
    pub fn follows(self, kind: Kind, before: usize, after: usize) -> bool
        ensures { result ≡ follows kind self before after }
    {
        match self {
            Effect::Same => after == before,
            Effect::Free => true,
            Effect::Up if kind.is_boolean() => after == 1,
            Effect::Up => after > before,
            Effect::Down if kind.is_boolean() => after == 0,
            Effect::Down => after < before,
        }
    }
}

impl Rule {
    // The rule that names no feature. A const fn, which `Default::default` cannot be.
    pub const fn blank() -> Rule
        ensures { result ≡ unnamed }
    {
        Rule {
            entries: [Entry {
                when: Condition::Any,
                then: Effect::Same,
            }; 8],
        }
    }
}

impl Entry {
    // The entry sets no condition, and keeps the feature.
    pub fn is_silent(&self) -> bool
        ensures { result ≡ silent self.now }
    {
        self.when == Condition::Any && self.then == Effect::Same
    }

    // The rule lowers the feature whenever it is taken.
    pub fn surely_lowers(&self, kind: Kind) -> bool
        ensures { result ≡ surely_lowers kind self.now }
    {
        self.then == Effect::Down && (!kind.is_boolean() || self.when == Condition::Positive)
    }

    // The rule raises the feature, a Boolean, whenever it is taken.
    pub fn surely_raises(&self, kind: Kind) -> bool
        ensures { result ≡ surely_raises kind self.now }
    {
        kind.is_boolean() && self.when == Condition::Zero && self.then == Effect::Up
    }

    // The rule can be taken so that the feature rises.
    pub fn may_raise(&self, kind: Kind) -> bool
        ensures { result ≡ may_raise kind self.now }
    {
        matches!(self.then, Effect::Up | Effect::Free)
            && !(kind.is_boolean() && self.when == Condition::Positive)
    }

    // The rule can be taken so that the feature, a Boolean, falls.
    pub fn may_lower(&self, kind: Kind) -> bool
        ensures { result ≡ may_lower kind self.now }
    {
        kind.is_boolean()
            && matches!(self.then, Effect::Down | Effect::Free)
            && self.when != Condition::Zero
    }

    // The entry moves the feature one way, and no rule that is left moves it back: `raised` and `lowered` tell whether one
    // may raise and lower it.
    pub fn moves_one_way(&self, kind: Kind, raised: bool, lowered: bool) -> bool
        ensures { result ≡ one_way kind self.now raised lowered }
    {
        (self.surely_lowers(kind) && !raised) || (self.surely_raises(kind) && !lowered)
    }

    // The entry allows the values `before` and `after` of a feature.
    pub fn accepts(&self, kind: Kind, before: usize, after: usize) -> bool
        ensures { result ≡ entry_accepts kind self.now before after }
    {
        self.when.holds(before) && self.then.follows(kind, before, after)
    }
}
