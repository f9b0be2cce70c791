// The tuple measure: a key for each set of at most `width` of the true atoms below `atoms`.
ghost use Rattle.std.specs.Prelude.{◌≡◌, ◌≤◌, Some, None, Ok, Err, MatchResult};
ghost use Rattle.domain.specs.Atoms.{members};
ghost use Rattle.novelty.specs.Tuples.{tuple_count, tuple_keys, tuples_fault, OneToOne};
ghost use Rattle.novelty.specs.Keys.{keys_below};
ghost use native.Mathlib.Omega.{arith};
ghost use Rattle.std.proofs.Common.{rules};

mod walk;

use crate::binomials::smaller_sets;
use crate::marks::{is_unmarked, put_mark};
use crate::measure::{MOST_KEYS, Measure};
use crate::tuples::walk::Reached;
use domain::atoms::AtomSet;
use domain::model::MAX_ATOMS;
use domain::refusal::Refusal;

// No measure takes larger sets.
const MAX_WIDTH: usize = 3;

#[derive(Clone, Copy, Debug)]
pub struct Tuples {
    atoms: usize,
    width: usize,
    ghost some: { 1 ≤ atoms },
    ghost few: { atoms ≤ 256 },
    ghost narrow: { width ≤ 3 },
    ghost counted: { tuple_count atoms width ≤ 65536 },
}

// Whether there is a measure of the sets of at most `width` of so many atoms, or why there is none.
fn check(atoms: usize, width: usize) -> Result<(), Refusal>
    ensures { MatchResult result (λ _. tuples_fault atoms width ≡ None) (λ e. tuples_fault atoms width ≡ Some e) }
{
    if width > MAX_WIDTH || atoms == 0 {
        return Err(Refusal::Range { place: 0 });
    }
    if atoms > MAX_ATOMS {
        return Err(Refusal::Limit { place: 0 });
    }
    if smaller_sets(atoms, width + 1) > MOST_KEYS {
        return Err(Refusal::ManyKeys);
    }
    Ok(())
}

impl Tuples {
    ghost use Rattle.novelty.specs.Walk.{Tries};

    #[tactic(auto, using(crate::specs::Ranks::one_to_one))]
    pub fn new(atoms: usize, width: usize) -> Result<Tuples, Refusal>
        ensures answer { elim result [ Ok m ↦ (tuples_fault atoms width ≡ None) × (m.atoms ≡ atoms) × (m.width ≡ width) | Err e ↦ tuples_fault atoms width ≡ Some e ] }
        ensures distinct { OneToOne atoms }
    {
        check(atoms, width)?;
        Ok(Tuples { atoms, width })
    }

    // Whether the test is true of a key of the set. The keys are tried in their order, and none behind the first of which
    // it is true.
    fn any_key<F: FnMut(usize) -> bool>(&self, atoms: &AtomSet, test: &mut F) -> bool
        requires { (state : F) (key : _) → F.pre state key }
        ensures { Tries F.FnMut test.old (tuple_keys self.now.atoms self.now.width (members atoms.now)) result test.new }
    {
        // a set lists its members into lent memory, since no call allocates
        let mut list = [0; MAX_ATOMS];
        let count = atoms.below(self.atoms).list_members(&mut list);
        Reached::none(self, &list[..count]).any_key(test)
    }
}

impl Measure for Tuples {
    ghost total = { λ m. tuple_count m.atoms m.width };

    ghost keys = { λ m. tuple_keys m.atoms m.width };

    ghost limit = { Prim.search rules };

    ghost below = { λ m atoms rising. keys_below m.atoms m.width atoms rising };

    ghost some = { unfold tuple_keys in λ m atoms rising. omega arith };

    fn count(&self) -> usize {
        smaller_sets(self.atoms, self.width + 1)
    }

    fn is_novel(&self, atoms: &AtomSet, marks: &[u8]) -> bool {
        self.any_key(atoms, &mut |key| is_unmarked(marks, key))
    }

    fn mark(&self, atoms: &AtomSet, marks: &mut [u8]) {
        let mut mark_one = |key| {
            put_mark(marks, key);
            false
        };
        self.any_key(atoms, &mut mark_one);
    }
}
