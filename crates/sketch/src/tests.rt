// Examples: what the sieve leaves, what is refused, and what features and sketches tell of states.
use crate::feature::{Feature, Kind};
use crate::letter::UnknownLetter;
use crate::rule::{Condition, Effect, Entry, Rule};
use crate::sketch::Sketch;
use domain::atoms::AtomSet;
use domain::refusal::Refusal;
use std::test::Fail;

fn of_kind(kind: Kind) -> Feature {
    Feature {
        kind,
        atoms: AtomSet::of(&[3, 200]),
    }
}

// Conditions and effects of the first four features by their characters.
fn rule(whens: [char; 4], thens: [char; 4]) -> Option<Rule> {
    let mut rule = Rule::blank();
    for (entry, (when, then)) in rule.entries.iter_mut().zip(whens.into_iter().zip(thens)) {
        *entry = Entry {
            when: Condition::try_from(when).ok()?,
            then: Effect::try_from(then).ok()?,
        };
    }
    Some(rule)
}

fn refusal(features: &[Feature], rules: &[Rule]) -> Option<Refusal> {
    Sketch::new(features, rules).err()
}

#[test]
fn two_rules_undo_one_another(rt: HostRuntime) -> Result<(), Fail> {
    let features = [of_kind(Kind::Boolean), of_kind(Kind::TrueCount)];
    let first = rule(['+', '.', '.', '.'], ['-', '+', '=', '=']).ok_or("form")?;
    let second = rule(['.', '+', '.', '.'], ['?', '-', '=', '=']).ok_or("form")?;
    assert_eq!(rt;
        refusal(&features, &[first, second]),
        Some(Refusal::RulesLeft { rules: 2 })
    );
    Ok(())
}

#[test]
fn carrying(rt: HostRuntime) -> Result<(), Fail> {
    let number = of_kind(Kind::FalseCount);
    let features = [of_kind(Kind::Boolean), number, number, number];
    let take_up = rule(['0', '.', '.', '.'], ['+', '?', '?', '=']).ok_or("form")?;
    let bring = rule(['.', '.', '.', '+'], ['?', '?', '?', '-']).ok_or("form")?;
    let put_down = rule(['+', '.', '.', '.'], ['-', '?', '?', '=']).ok_or("form")?;
    let come_near = rule(['0', '+', '.', '.'], ['=', '-', '?', '=']).ok_or("form")?;
    let carry_on = rule(['+', '.', '+', '.'], ['=', '?', '-', '=']).ok_or("form")?;
    let left = Some(Refusal::RulesLeft { rules: 2 });
    assert_eq!(rt; refusal(&features, &[take_up, bring]), None);
    assert_eq!(rt; refusal(&features, &[put_down, take_up]), left);
    assert_eq!(rt;
        refusal(&features, &[take_up, bring, come_near, carry_on]),
        left
    );
    Ok(())
}

#[test]
fn refused_before_the_sieve(rt: HostRuntime) -> Result<(), Fail> {
    let feature = of_kind(Kind::Boolean);
    let second = rule(['.', '.', '.', '.'], ['=', '?', '=', '=']).ok_or("form")?;
    assert_eq!(rt;
        refusal(&[feature], &[Rule::blank(), second]),
        Some(Refusal::Range { place: 1 })
    );
    assert_eq!(rt;
        refusal(&[feature; 9], &[Rule::blank()]),
        Some(Refusal::Limit { place: 8 })
    );
    assert_eq!(rt;
        refusal(&[feature], &[Rule::blank(); 17]),
        Some(Refusal::Limit { place: 16 })
    );
    Ok(())
}

#[test]
fn values_and_steps(rt: HostRuntime) -> Result<(), Fail> {
    let falls = rule(['+', '.', '.', '.'], ['-', '?', '=', '=']).ok_or("form")?;
    let features = [of_kind(Kind::TrueCount), of_kind(Kind::Boolean)];
    let sketch = Sketch::new(&features, &[falls]).ok().ok_or("refused")?;
    let empty = AtomSet::empty();
    let one = AtomSet::of(&[200, 7]);
    assert_eq!(rt; sketch.feature_count(), 2);
    assert_eq!(rt; sketch.value(0, &one), 1);
    assert_eq!(rt; sketch.value(1, &one), 1);
    assert_eq!(rt; of_kind(Kind::FalseCount).value(&one), 1);
    assert_eq!(rt; of_kind(Kind::FalseCount).top(), 2);
    assert!(rt; sketch.accepts(&one, &empty));
    assert!(rt; !sketch.accepts(&empty, &one));
    Ok(())
}

#[test]
fn characters(rt: HostRuntime) {
    assert_eq!(rt; Kind::try_from('t'), Ok(Kind::TrueCount));
    assert_eq!(rt; Kind::try_from('x'), Err(UnknownLetter));
    assert_eq!(rt; char::from(Effect::Free), '?');
    assert_eq!(rt; Condition::try_from('0'), Ok(Condition::Zero));
}
