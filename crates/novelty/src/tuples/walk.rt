// The walk over the tuples of a rising list of atoms: from each tuple to those with one more atom behind its last.
ghost use Rattle.std.specs.Prelude.{◌≡◌, ◌+◌, ◌*◌, ◌^◌, ◌<◌, ◌≤◌, map};
ghost use Rattle.std.specs.List.{AllByRecursion};
ghost use Rattle.std.proofs.Props.{props};

use crate::binomials::binomial;
use crate::tuples::Tuples;

// A tuple that the walk has come to: how many atoms it has, its key, and the atoms that may go behind its last.
#[derive(Clone, Copy)]
pub(super) struct Reached<'a> {
    measure: &'a Tuples,
    size: usize,
    key: usize,
    rest: &'a [u16],
    ghost depth: { size ≤ measure.now.width },
    ghost fits: { key ≤ size * 2 ^ 33 },
    ghost below: { AllByRecursion (λ a. a < measure.now.atoms) rest.now } by { Prim.hlevel props },
}

impl<'a> Reached<'a> {
    ghost use Rattle.novelty.specs.Tuples.{rank, sets_of};
    ghost use Rattle.novelty.specs.Walk.{Longer, keys_from, keys_behind, Tries};

    // The tuple of no atoms.
    pub(super) fn none(measure: &'a Tuples, atoms: &'a [u16]) -> Reached<'a>
        requires { AllByRecursion (λ a. a < measure.now.atoms) atoms.now }
        ensures { keys_from result ≡ map (rank measure.now.atoms) (sets_of measure.now.width atoms.now) }
    {
        Reached {
            measure,
            size: 0,
            key: 0,
            rest: atoms,
        }
    }

    // The tuple with one more atom behind its last.
    fn with(&self, atom: u16, rest: &'a [u16]) -> Reached<'a>
        requires room { self.now.size < self.now.measure.now.width }
        requires atom { atom < self.now.measure.now.atoms }
        requires below { AllByRecursion (λ a. a < self.now.measure.now.atoms) rest.now }
        ensures { Longer self.now result atom rest.now }
    {
        let size = self.size + 1;
        Reached {
            measure: self.measure,
            size,
            key: self.key + binomial(self.measure.atoms, self.size) + binomial(atom as usize, size),
            rest,
        }
    }

    // Whether the test is true of a key among those of the tuple and of each that goes on from it. The keys are tried in
    // their order, and none behind the first of which it is true.
    #[cycle(walk)]
    pub(super) fn any_key<F: FnMut(usize) -> bool>(self, test: &mut F) -> bool
        requires { (state : F) (key : _) → F.pre state key }
        ensures { Tries F.FnMut test.old (keys_from self.entry) result test.new }
    {
        test(self.key) || (self.size < self.measure.width && self.any_longer(test))
    }

    // The same of the tuples that go on from it alone. Never inlined, so that the walk calls it for tuples with room and
    // tests the key of a longest one in place.
    #[cycle(walk)]
    #[inline(never)]
    fn any_longer<F: FnMut(usize) -> bool>(self, test: &mut F) -> bool
        requires room { self.size < self.measure.now.width }
        requires callable { (state : F) (key : _) → F.pre state key }
        ensures { Tries F.FnMut test.old (keys_behind self.entry self.entry.rest.now) result test.new }
    {
        let mut rest = self.rest;
        while let Some((atom, tail)) = rest.split_first() {
            if self.with(*atom, tail).any_key(test) {
                return true;
            }
            rest = tail;
        }
        false
    }
}
