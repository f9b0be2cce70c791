// The reader: what was read so far, and what one more line does to it.
ghost use Rattle.std.specs.Prelude.{◌≡◌, ◌≤◌};
ghost use Rattle.std.specs.Str.{bytes_eq};
ghost use Rattle.problem.specs.declared.fault.Table.TheVariants.{Atoms, Actions, Features, Rules};
ghost use Rattle.problem.specs.Reader.{names_of, after_table, start_of, opened, closed, valued, step, Moves};

use crate::fault::{LineFault, Table};
use crate::line::Line;
use crate::rows::{read_action_row, read_atom_row, read_feature_row, read_rule_row};
use crate::tables::{ActionRow, AtomTable, FeatureTable, RuleTable};
use std::marker::Model;

// What the next line should be.
#[derive(Clone, Copy)]
pub enum Wanted {
    // the names of a table
    TheNames(Table),
    // values of a table, or the empty line that ends it
    Values(Table),
    // no line
    Nothing,
}

// The tables as far as they are read. Of the actions only their number is kept. Every count keeps to its limit.
#[derive(Drop)]
pub struct Reader {
    // how many actions there may be
    pub limit: usize,
    pub wanted: Wanted,
    pub atoms: AtomTable,
    pub actions: usize,
    pub features: FeatureTable,
    pub rules: RuleTable,
}

impl Model for Reader {
    ghost use Rattle.problem.specs.State.{State, Sound};

    ghost Value = { State };

    ghost view = { λ r. record { limit = r.limit; wanted = r.wanted; atoms = r.atoms; actions = r.actions; features = r.features; rules = r.rules } };

    ghost invariant = { λ r. Sound (record { limit = r.limit; wanted = r.wanted; atoms = r.atoms; actions = r.actions; features = r.features; rules = r.rules }) };
}

// The line that opens a table.
fn names(table: Table) -> &'static [u8]
    ensures { result.now ≡ names_of table }
{
    match table {
        Table::Atoms => b"atom start goal",
        Table::Actions => b"action role atom",
        Table::Features => b"feature kind atom",
        Table::Rules => b"rule feature when then",
    }
}

// Whether a line is the one that opens a table.
fn opens(bytes: &[u8], table: Table) -> bool
    ensures { result ≡ bytes_eq bytes.now (names_of table) }
{
    bytes == names(table)
}

// What is wanted behind a table.
fn after_table(table: Table) -> Wanted
    ensures { result ≡ after_table table }
{
    match table {
        Table::Atoms => Wanted::TheNames(Table::Actions),
        Table::Actions => Wanted::TheNames(Table::Features),
        Table::Features => Wanted::TheNames(Table::Rules),
        Table::Rules => Wanted::Nothing,
    }
}

impl Reader {
    pub(crate) fn new(limit: usize) -> Reader
        requires { limit ≤ 1024 }
        ensures { result ≡ start_of limit }
    {
        Reader {
            limit,
            wanted: Wanted::TheNames(Table::Atoms),
            atoms: AtomTable::new(),
            actions: 0,
            features: FeatureTable::new(),
            rules: RuleTable::new(),
        }
    }

    // The line should be the names of the table.
    fn open(&mut self, table: Table, line: &Line) -> Result<Option<ActionRow>, LineFault>
        ensures { Moves (opened self.old table line.now.number line.now.bytes.now) self.new result }
    {
        if opens(line.bytes, table) {
            self.wanted = Wanted::Values(table);
            Ok(None)
        } else {
            Err(LineFault::Names { line: line.number })
        }
    }

    // The empty line ends the table.
    fn close(&mut self, table: Table, line: usize) -> Result<Option<ActionRow>, LineFault>
        ensures { Moves (closed self.old table line) self.new result }
    {
        match table {
            Table::Atoms if self.atoms.count == 0 => Err(LineFault::NoAtoms { line }),
            _ => {
                self.wanted = after_table(table);
                Ok(None)
            }
        }
    }

    // One more atom.
    fn add_atom(&mut self, line: &Line) -> Result<Option<ActionRow>, LineFault>
        ensures { Moves (valued self.old Atoms line.now.number line.now.bytes.now) self.new result }
    {
        let row = read_atom_row(line, self.atoms.count)?;
        self.atoms.add(row);
        Ok(None)
    }

    // An atom of an action, which is told.
    fn add_action(&mut self, line: &Line) -> Result<Option<ActionRow>, LineFault>
        ensures { Moves (valued self.old Actions line.now.number line.now.bytes.now) self.new result }
    {
        let row = read_action_row(line, self.atoms.count, self.limit)?;
        self.actions = self.actions.max(row.action + 1);
        Ok(Some(row))
    }

    // An atom of a feature.
    fn add_feature(&mut self, line: &Line) -> Result<Option<ActionRow>, LineFault>
        ensures { Moves (valued self.old Features line.now.number line.now.bytes.now) self.new result }
    {
        let row = read_feature_row(line, self.atoms.count, &self.features)?;
        self.features.add(row);
        Ok(None)
    }

    // What a rule says of a feature.
    fn add_rule(&mut self, line: &Line) -> Result<Option<ActionRow>, LineFault>
        ensures { Moves (valued self.old Rules line.now.number line.now.bytes.now) self.new result }
    {
        let row = read_rule_row(line, self.features.count(), &self.rules)?;
        self.rules.add(row);
        Ok(None)
    }

    // One line more. The row of a line of the action table is told.
    pub(crate) fn advance(&mut self, line: &Line) -> Result<Option<ActionRow>, LineFault>
        ensures { Moves (step self.old line.now.number line.now.bytes.now) self.new result }
    {
        match (self.wanted, line.bytes) {
            (Wanted::TheNames(table), _) => self.open(table, line),
            (Wanted::Values(table), []) => self.close(table, line.number),
            (Wanted::Values(Table::Atoms), _) => self.add_atom(line),
            (Wanted::Values(Table::Actions), _) => self.add_action(line),
            (Wanted::Values(Table::Features), _) => self.add_feature(line),
            (Wanted::Values(Table::Rules), _) => self.add_rule(line),
            (Wanted::Nothing, _) => Err(LineFault::AfterEnd { line: line.number }),
        }
    }
}
