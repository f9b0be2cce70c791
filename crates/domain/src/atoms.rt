// A set of atoms 0 to 255, in four words of 64 bits: atom a is bit a % 64 of word a / 64.
// Above this file nobody sees a word, only membership (`has`) and the rising list of members.
ghost use Rattle.std.specs.Prelude.{◌≡◌, ℕ, ◌*◌, ◌≤◌, true, false, not, ◌&&◌, ◌||◌, ◌++◌, length, drop, Decides, MatchOption, ◌==◌, nat_lt};
ghost use Rattle.std.specs.Iterator.{YieldsFirst, item_count};
ghost use Rattle.domain.specs.Atoms.{has, members, members_from, none, with_atom, without_atom, unite, without, common, limited, within, NoneFrom, FirstFrom};
ghost use Rattle.domain.specs.Model.{Rising, among};

use crate::words;

#[derive(Clone, Copy, PartialEq, Eq, Debug)]
pub struct AtomSet {
    words: [u64; 4],
}

impl Default for AtomSet {
    ghost is_default = { λ set. set ≡ none };

    // The set with no members.
    fn default() -> AtomSet {
        AtomSet::empty()
    }
}

impl AtomSet {
    pub const fn empty() -> AtomSet
        ensures value { result ≡ none }
        ensures membership { (a : ℕ) → has result a ≡ false }
    {
        AtomSet { words: [0; 4] }
    }

    // The set of the listed atoms.
    pub fn of(atoms: &[u8]) -> AtomSet
        ensures { (a : ℕ) → has result a ≡ among atoms.now a }
    {
        let mut set = AtomSet::empty();
        for atom in atoms {
            set.insert(*atom);
        }
        set
    }

    pub fn contains(&self, atom: u8) -> bool
        ensures { result ≡ has self.now atom }
    {
        words::is_set(&self.words, atom)
    }

    // Whether a number is a member; none past 255 is.
    pub(crate) fn includes(&self, number: usize) -> bool
        ensures value { result ≡ has self.now number }
        ensures listed { result ≡ among (members self.now) number }
    {
        u8::try_from(number).is_ok_and(|atom| self.contains(atom))
    }

    pub fn insert(&mut self, atom: u8)
        ensures after { self.new ≡ with_atom self.old atom }
        ensures membership { (a : ℕ) → has self.new a ≡ (has self.old a || a == atom) }
    {
        words::change(&mut self.words, atom, |word, bit| word | bit);
    }

    pub fn remove(&mut self, atom: u8)
        ensures after { self.new ≡ without_atom self.old atom }
        ensures membership { (a : ℕ) → has self.new a ≡ (has self.old a && not (a == atom)) }
    {
        words::change(&mut self.words, atom, |word, bit| word & !bit);
    }

    pub fn union(&self, other: &AtomSet) -> AtomSet
        ensures value { result ≡ unite self.now other.now }
        ensures membership { (a : ℕ) → has result a ≡ (has self.now a || has other.now a) }
    {
        AtomSet {
            words: words::zipped(&self.words, &other.words, |a, b| a | b),
        }
    }

    pub fn difference(&self, other: &AtomSet) -> AtomSet
        ensures value { result ≡ without self.now other.now }
        ensures membership { (a : ℕ) → has result a ≡ (has self.now a && not (has other.now a)) }
    {
        AtomSet {
            words: words::zipped(&self.words, &other.words, |a, b| a & !b),
        }
    }

    pub fn intersection(&self, other: &AtomSet) -> AtomSet
        ensures value { result ≡ common self.now other.now }
        ensures membership { (a : ℕ) → has result a ≡ (has self.now a && has other.now a) }
    {
        AtomSet {
            words: words::zipped(&self.words, &other.words, |a, b| a & b),
        }
    }

    // The members below `bound`.
    pub fn below(&self, bound: usize) -> AtomSet
        ensures value { result ≡ limited self.now bound }
        ensures membership { (a : ℕ) → has result a ≡ (has self.now a && nat_lt a bound) }
    {
        AtomSet {
            words: words::low(&self.words, bound),
        }
    }

    pub fn is_empty(&self) -> bool
        ensures { Decides result ((a : ℕ) → has self.now a ≡ false) }
    {
        words::is_blank(&self.words)
    }

    pub fn is_subset(&self, other: &AtomSet) -> bool
        ensures value { result ≡ within self.now other.now }
        ensures membership { Decides result ((a : ℕ) → has self.now a ≡ true → has other.now a ≡ true) }
    {
        self.difference(other).is_empty()
    }

    // How many members there are.
    pub fn count(&self) -> usize
        ensures value { result ≡ length (members self.now) }
        ensures small { result ≤ 256 }
    {
        words::count(&self.words)
    }

    // The lowest member in the words from `start` on.
    fn first(&self, start: usize) -> Option<u8>
        ensures { MatchOption result (NoneFrom self.now (64 * start)) (FirstFrom self.now (64 * start)) }
    {
        let place = words::first_set(&self.words, start)?;
        Some((64 * place) as u8 + self.words[place].trailing_zeros() as u8)
    }

    // The lowest member at or past `from`: in what is left of the word of `from`, or in a later word.
    pub fn next_from(&self, from: usize) -> Option<u8>
        ensures { MatchOption result (NoneFrom self.now from) (FirstFrom self.now from) }
    {
        let rest = *self.words.get(from / 64)? >> (from % 64);
        if rest == 0 {
            return self.first(from / 64 + 1);
        }
        Some(from as u8 + rest.trailing_zeros() as u8)
    }

    // The members, rising.
    fn iter(&self) -> Members<'_>
        ensures set { result.set.now ≡ self.now }
        ensures from { result.from ≡ 0 }
    {
        Members { set: self, from: 0 }
    }

    // Writes the members, rising, from the list's beginning, and tells how many they are.
    // The list is memory that callers lend, so its filled length is counted beside it.
    pub fn list_members(&self, list: &mut [u16; 256]) -> usize
        ensures value { result ≡ length (members self.now) }
        ensures after { list.new ≡ members self.now ++ drop result list.old }
        ensures rising { Rising (members self.now) }
    {
        let mut count = 0;
        for atom in self.iter() {
            list[count] = u16::from(atom);
            count += 1;
        }
        count
    }
}

// The members of a set at or past `from`, from the lowest up.
#[derive(Clone, Copy)]
struct Members<'a> {
    set: &'a AtomSet,
    from: usize,
}

impl<'a> Iterator for Members<'a> {
    type Item = u8;

    ghost next_gives = { YieldsFirst (λ s. members_from s.set.now s.from) };

    ghost remaining = { item_count (λ s. members_from s.set.now s.from) };

    fn next(&mut self) -> Option<u8> {
        let atom = self.set.next_from(self.from)?;
        self.from = usize::from(atom) + 1;
        Some(atom)
    }
}
