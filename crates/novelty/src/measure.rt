// Novelty measures: which keys a set of atoms has.
ghost use Rattle.std.specs.Prelude.{◌≡◌, ℕ, ◌<◌, ◌≤◌, List, length};
ghost use Rattle.std.specs.List.{AllByRecursion};
ghost use Rattle.domain.specs.Atoms.{members};
ghost use Rattle.domain.specs.Model.{Rising};
ghost use Rattle.novelty.specs.Marks.{novel, marked};

use domain::atoms::AtomSet;

// No measure has more.
pub const MOST_KEYS: usize = 65_536;

// A measure's ghost meaning is its count of keys and the keys of each set of atoms, a strictly rising list.
// A table of marks has one byte a key: zero for unmarked. A key past the table counts as marked.
pub trait Measure {
    ghost total: { Self → ℕ };

    ghost keys: { Self → List ℕ → List ℕ };

    fn count(&self) -> usize
        ensures { result ≡ total self.now };

    // Whether some key of the set is unmarked.
    fn is_novel(&self, atoms: &AtomSet, marks: &[u8]) -> bool
        ensures { result ≡ novel (keys self.now (members atoms.now)) marks.now };

    // Marks every key of the set.
    fn mark(&self, atoms: &AtomSet, marks: &mut [u8])
        ensures { marks.new ≡ marked (keys self.now (members atoms.now)) marks.old };

    ghost limit: { (m : Self) → total m ≤ 65536 };

    ghost below: { (m : Self) (atoms : List ℕ) → Rising atoms → AllByRecursion (λ k. k < total m) (keys m atoms) };

    ghost some: { (m : Self) (atoms : List ℕ) → Rising atoms → 1 ≤ length (keys m atoms) };
}
