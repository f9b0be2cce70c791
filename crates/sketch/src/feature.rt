// A feature: a number read off the true atoms of a state.
ghost use Rattle.std.specs.Prelude.{◌≡◌, ◌≤◌};
ghost use Rattle.domain.specs.Atoms.{members};
ghost use Rattle.sketch.specs.Feature.{value_of, top_of, unnamed_feature};
ghost use Rattle.sketch.specs.Kind.{kind_char, kind_named, boolean};
ghost use Rattle.sketch.specs.Letter.{Reads, Writes};

use crate::letter::UnknownLetter;
use domain::atoms::AtomSet;

#[derive(Clone, Copy, PartialEq, Eq, Debug)]
pub enum Kind {
    // 1 where some atom of the set is true, else 0
    Boolean,
    // how many atoms of the set are true
    TrueCount,
    // how many atoms of the set are false
    FalseCount,
}

impl TryFrom<char> for Kind {
    type Error = UnknownLetter;

    ghost try_from_gives = { Reads kind_char kind_named };

    fn try_from(letter: char) -> Result<Kind, UnknownLetter> {
        match letter {
            'b' => Ok(Kind::Boolean),
            't' => Ok(Kind::TrueCount),
            'f' => Ok(Kind::FalseCount),
            _ => Err(UnknownLetter),
        }
    }
}

impl From<Kind> for char {
    ghost from_gives = { Writes kind_char kind_named };

    fn from(kind: Kind) -> char {
        match kind {
            Kind::Boolean => 'b',
            Kind::TrueCount => 't',
            Kind::FalseCount => 'f',
        }
    }
}

impl Kind {
    pub fn is_boolean(self) -> bool
        ensures { result ≡ boolean self }
    {
        matches!(self, Kind::Boolean)
    }
}

#[derive(Clone, Copy, PartialEq, Eq, Debug)]
pub struct Feature {
    pub kind: Kind,
    pub atoms: AtomSet,
}

impl Feature {
    // The feature that is not named: it counts no atoms. A const fn, which `Default::default` cannot be.
    pub const fn blank() -> Feature
        ensures { result ≡ unnamed_feature }
    {
        Feature {
            kind: Kind::TrueCount,
            atoms: AtomSet::empty(),
        }
    }

    // The feature's value where the atoms of `truths` are the true ones.
    pub fn value(&self, truths: &AtomSet) -> usize
        ensures counts { result ≡ value_of self.now (members truths.now) }
        ensures below { result ≤ top_of self.now }
    {
        match self.kind {
            Kind::Boolean => self.atoms.intersection(truths).count().min(1),
            Kind::TrueCount => self.atoms.intersection(truths).count(),
            Kind::FalseCount => self.atoms.difference(truths).count(),
        }
    }

    // The largest value that it can have.
    pub fn top(&self) -> usize
        ensures value { result ≡ top_of self.now }
        ensures small { result ≤ 256 }
    {
        match self.kind {
            Kind::Boolean => 1,
            Kind::TrueCount | Kind::FalseCount => self.atoms.count(),
        }
    }
}
