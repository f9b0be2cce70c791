// The lines of values of each table. Each is checked for its form, then for its ranges, then for its limit.
ghost use Rattle.std.specs.Prelude.{◌≡◌, ◌<◌, ◌≤◌, Ok, Err, IfOk, OnOk, MatchResult};
ghost use Rattle.sketch.specs.declared.letter.UnknownLetter.{UnknownLetter};
ghost use Rattle.problem.specs.declared.fault.LineFault.TheVariants.{Letter};
ghost use Rattle.problem.specs.Rows.{truth, checked_atom, checked_action, second_kind, checked_feature, checked_entry, checked_rule, atom_row, action_row, feature_row, rule_row};

use crate::fault::{LineFault, Table};
use crate::form::{read_four, read_three};
use crate::line::Line;
use crate::role::Role;
use crate::tables::{
    ActionRow, AtomRow, FeatureRow, FeatureTable, MAX_FEATURES, MAX_RULES, RuleRow, RuleTable,
};
use domain::model::MAX_ATOMS;
use sketch::feature::Kind;
use sketch::letter::UnknownLetter;
use sketch::rule::{Condition, Effect, Entry};

// The checks take the number of the line alone, and no `Line`: they read no bytes, and every fault holds it as `line`.
// The truth value that a number stands for.
fn check_truth(line: usize, column: usize, number: usize) -> Result<bool, LineFault>
    ensures { result ≡ truth line column number }
{
    match number {
        0 => Ok(false),
        1 => Ok(true),
        _ => Err(LineFault::Truth { line, column }),
    }
}

// What the letter of a column stands for.
fn check_letter<T: TryFrom<char, Error = UnknownLetter>>(
    line: usize,
    column: usize,
    letter: char,
) -> Result<T, LineFault>
    ensures { MatchResult result (λ x. T.try_from_gives letter (Ok x)) (λ e. (e ≡ Letter line column) × (d : UnknownLetter) × T.try_from_gives letter (Err d)) }
{
    T::try_from(letter).map_err(|_| LineFault::Letter { line, column })
}

// The line of the atom `next`.
fn check_atom(line: usize, next: usize, values: (usize, usize, usize)) -> Result<AtomRow, LineFault>
    ensures value { result ≡ checked_atom next line values }
    ensures bound { OnOk result (next < 256) }
{
    let (atom, start, goal) = values;
    if atom != next {
        return Err(LineFault::AtomOrder { line });
    }
    let start = check_truth(line, 2, start)?;
    let goal = check_truth(line, 3, goal)?;
    if next >= MAX_ATOMS {
        return Err(LineFault::Full {
            line,
            table: Table::Atoms,
        });
    }
    Ok(AtomRow { start, goal })
}

// A line that gives an atom a role in an action.
fn check_action(
    line: usize,
    atoms: usize,
    limit: usize,
    values: (usize, char, usize),
) -> Result<ActionRow, LineFault>
    requires { atoms ≤ 256 }
    ensures value { result ≡ checked_action atoms limit line values }
    ensures bound { IfOk result (λ row. row.action < limit) }
{
    let (action, letter, atom) = values;
    let role: Role = check_letter(line, 2, letter)?;
    if atom >= atoms {
        return Err(LineFault::NoSuchAtom { line });
    }
    if action >= limit {
        return Err(LineFault::Full {
            line,
            table: Table::Actions,
        });
    }
    let atom = atom as u8;
    Ok(ActionRow { action, role, atom })
}

// Whether the feature was named under another kind than this one.
fn is_second_kind(table: &FeatureTable, feature: usize, kind: Option<Kind>) -> bool
    ensures { result ≡ second_kind table.now feature kind }
{
    kind.is_some_and(|kind| table.has_other_kind(feature, kind))
}

// A line that gives a feature a kind and an atom.
fn check_feature(
    line: usize,
    atoms: usize,
    table: &FeatureTable,
    values: (usize, char, usize),
) -> Result<FeatureRow, LineFault>
    requires { atoms ≤ 256 }
    ensures value { result ≡ checked_feature atoms table.now line values }
    ensures bound { IfOk result (λ row. row.feature < 8) }
{
    let (feature, letter, atom) = values;
    let named: Result<Kind, LineFault> = check_letter(line, 2, letter);
    if is_second_kind(table, feature, named.ok()) {
        return Err(LineFault::SecondKind { line });
    }
    let kind = named?;
    if atom >= atoms {
        return Err(LineFault::NoSuchAtom { line });
    }
    if feature >= MAX_FEATURES {
        return Err(LineFault::Full {
            line,
            table: Table::Features,
        });
    }
    let atom = atom as u8;
    Ok(FeatureRow {
        feature,
        kind,
        atom,
    })
}

// The entry that two letters stand for.
fn check_entry(line: usize, when: char, then: char) -> Result<Entry, LineFault>
    ensures { result ≡ checked_entry line when then }
{
    let when: Condition = check_letter(line, 3, when)?;
    let then: Effect = check_letter(line, 4, then)?;
    Ok(Entry { when, then })
}

// A line that gives a rule an entry for a feature.
fn check_rule(
    line: usize,
    features: usize,
    table: &RuleTable,
    values: (usize, usize, char, char),
) -> Result<RuleRow, LineFault>
    ensures value { result ≡ checked_rule features table.now line values }
    ensures bound { IfOk result (λ row. (row.rule < 16) × (row.feature < features)) }
{
    let (rule, feature, when, then) = values;
    if table.has_both(rule, feature) {
        return Err(LineFault::NamedTwice { line });
    }
    if feature >= features {
        return Err(LineFault::NoSuchFeature { line });
    }
    let entry = check_entry(line, when, then)?;
    if rule >= MAX_RULES {
        return Err(LineFault::Full {
            line,
            table: Table::Rules,
        });
    }
    Ok(RuleRow {
        rule,
        feature,
        entry,
    })
}

pub(crate) fn read_atom_row(line: &Line, next: usize) -> Result<AtomRow, LineFault>
    requires { next ≤ 256 }
    ensures value { result ≡ atom_row next line.now.number line.now.bytes.now }
    ensures bound { OnOk result (next < 256) }
{
    let values = read_three(line)?;
    check_atom(line.number, next, values)
}

pub(crate) fn read_action_row(
    line: &Line,
    atoms: usize,
    limit: usize,
) -> Result<ActionRow, LineFault>
    requires { (atoms ≤ 256) × (limit ≤ 1024) }
    ensures value { result ≡ action_row atoms limit line.now.number line.now.bytes.now }
    ensures bound { IfOk result (λ row. row.action < limit) }
{
    let values = read_three(line)?;
    check_action(line.number, atoms, limit, values)
}

pub(crate) fn read_feature_row(
    line: &Line,
    atoms: usize,
    table: &FeatureTable,
) -> Result<FeatureRow, LineFault>
    requires { atoms ≤ 256 }
    ensures value { result ≡ feature_row atoms table.now line.now.number line.now.bytes.now }
    ensures bound { IfOk result (λ row. row.feature < 8) }
{
    let values = read_three(line)?;
    check_feature(line.number, atoms, table, values)
}

pub(crate) fn read_rule_row(
    line: &Line,
    features: usize,
    table: &RuleTable,
) -> Result<RuleRow, LineFault>
    requires { features ≤ 8 }
    ensures value { result ≡ rule_row features table.now line.now.number line.now.bytes.now }
    ensures bound { IfOk result (λ row. (row.rule < 16) × (row.feature < features)) }
{
    let values = read_four(line)?;
    check_rule(line.number, features, table, values)
}
