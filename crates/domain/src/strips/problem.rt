// A STRIPS problem as a state model, and its maker.
ghost use Rattle.std.specs.Prelude.{◌≡◌, not, position};
ghost use Rattle.domain.specs.Atoms.{within, limited};
ghost use Rattle.domain.specs.Strips.{problem, state_after};
ghost use Rattle.domain.specs.StripsLaws.{problem_lawful};
ghost use Rattle.domain.specs.Operators.{fits, action_fits};
ghost use Rattle.domain.specs.Fault.{StripsChecked};
ghost use Rattle.domain.specs.Made.{StripsMade};

use crate::atoms::AtomSet;
use crate::model::{MAX_ACTIONS, MAX_ATOMS, StateModel};
use crate::refusal::Refusal;
use crate::strips::{Action, Strips};

// Whether every member is below the count of atoms.
fn is_below(set: &AtomSet, atoms: usize) -> bool
    ensures { result ≡ fits atoms set.now }
{
    set.next_from(atoms).is_none()
}

// Whether every atom that the action names is below the count of atoms.
fn names_below(action: &Action, atoms: usize) -> bool
    ensures { result ≡ action_fits atoms action.now }
{
    is_below(&action.preconditions, atoms)
        && is_below(&action.additions, atoms)
        && is_below(&action.deletions, atoms)
}

// The number of the lowest action that names an atom at or past the count.
fn lowest_unfit(table: &[Action], atoms: usize) -> Option<usize>
    ensures { result ≡ position (λ act. not (action_fits atoms act)) table.now }
{
    table.iter().position(|action| !names_below(action, atoms))
}

// What is wrong with a problem, if anything is: a count of 0 or past its limit, too many actions, or an atom past the count.
fn check(atoms: usize, start: &AtomSet, goal: &AtomSet, table: &[Action]) -> Result<(), Refusal>
    ensures { StripsChecked atoms start.now goal.now table.now result }
{
    if atoms == 0 {
        return Err(Refusal::Range { place: 0 });
    }
    if atoms > MAX_ATOMS {
        return Err(Refusal::Limit { place: 0 });
    }
    if table.len() > MAX_ACTIONS {
        return Err(Refusal::Limit { place: MAX_ACTIONS });
    }
    if !is_below(start, atoms) || !is_below(goal, atoms) {
        return Err(Refusal::Range { place: 0 });
    }
    if let Some(place) = lowest_unfit(table, atoms) {
        return Err(Refusal::Range { place });
    }
    Ok(())
}

impl Action {
    // The state after the action.
    fn apply_to(&self, state: &AtomSet) -> AtomSet
        ensures { result ≡ state_after state.now self.now }
    {
        state.difference(&self.deletions).union(&self.additions)
    }
}

impl<'a> Strips<'a> {
    // Whether all of some atoms are true in a state; one past the highest is not.
    fn all_true(&self, needed: &AtomSet, state: &AtomSet) -> bool
        ensures { result ≡ within needed.now (limited state.now self.now.atoms) }
    {
        needed.is_subset(&state.below(self.atoms))
    }

    // The problem, or what is wrong with it.
    pub fn new(
        atoms: usize,
        start: AtomSet,
        goal: AtomSet,
        table: &'a [Action],
    ) -> Result<Strips<'a>, Refusal>
        ensures { StripsMade atoms start goal table.now result }
    {
        check(atoms, &start, &goal, table)?;
        Ok(Strips {
            atoms,
            start,
            goal,
            table,
        })
    }
}

impl<'a> StateModel for Strips<'a> {
    type State = AtomSet;

    ghost meaning = { λ m. problem m.atoms m.start m.goal m.table.now };

    ghost lawful = { λ m. problem_lawful m.atoms m.start m.goal m.table.now m.some m.few m.short };

    fn atoms(&self) -> usize {
        self.atoms
    }

    fn actions(&self) -> usize {
        self.table.len()
    }

    fn start(&self) -> AtomSet {
        self.start
    }

    fn truths(&self, state: AtomSet) -> AtomSet {
        state.below(self.atoms)
    }

    fn is_target(&self, state: AtomSet) -> bool {
        self.all_true(&self.goal, &state)
    }

    fn applies(&self, state: AtomSet, action: usize) -> bool {
        action < self.actions() && self.all_true(&self.table[action].preconditions, &state)
    }

    fn successor(&self, state: AtomSet, action: usize) -> AtomSet {
        if self.applies(state, action) {
            self.table[action].apply_to(&state)
        } else {
            state
        }
    }
}
