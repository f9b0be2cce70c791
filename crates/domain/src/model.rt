// State models: what a problem is to a search.
ghost use Rattle.std.specs.Prelude.{◌≡◌};
ghost use Rattle.domain.specs.Atoms.{members};
ghost use Rattle.domain.specs.Model.{Meaning, Lawful, among};

use crate::atoms::AtomSet;

// No model has more.
pub const MAX_ATOMS: usize = 256;

pub const MAX_ACTIONS: usize = 1024;

// A model's ghost `meaning` is one value: its counts, its start, and of each state the true atoms, whether it is a
// target, which actions apply and which state follows. Each reply is the one that the meaning gives.
pub trait StateModel {
    type State: Copy;

    ghost meaning: { Self → Meaning Self.State };

    ghost lawful: { (m : Self) → Lawful (meaning m) };

    fn atoms(&self) -> usize
        ensures { result ≡ (meaning self.now).atoms };

    fn actions(&self) -> usize
        ensures { result ≡ (meaning self.now).actions };

    fn start(&self) -> Self::State
        ensures { result ≡ (meaning self.now).start };

    // The atoms that are true in a state.
    fn truths(&self, state: Self::State) -> AtomSet
        ensures { members result ≡ (meaning self.now).truths state };

    fn is_target(&self, state: Self::State) -> bool
        ensures { result ≡ (meaning self.now).target state };

    fn applies(&self, state: Self::State, action: usize) -> bool
        ensures { result ≡ (meaning self.now).applies state action };

    // The state that follows; the state itself where the action does not apply.
    fn successor(&self, state: Self::State, action: usize) -> Self::State
        ensures { result ≡ (meaning self.now).next state action };

    // Whether an atom is true in a state. A number at or past the count of atoms names a false one.
    fn holds(&self, state: Self::State, atom: usize) -> bool
        ensures { result ≡ among ((meaning self.now).truths state) atom }
    {
        self.truths(state).includes(atom)
    }
}
