// What the sieve is for, as theorems over valuations: no model is in sight here.
ghost use Rattle.std.specs.Prelude.{◌≡◌, true};
ghost use Rattle.sketch.specs.Examples.{Examples};
ghost use Rattle.sketch.specs.Laws.{AcceptanceSound, OrderFree, EntriesSound};
ghost use Rattle.sketch.specs.Sketch.{StatesApart};
ghost use Rattle.sketch.specs.Words.{AcceptsDecided};

// A run along an accepted sketch never returns; the order of the strikes does not matter; each "surely" and "may" of an
// entry is sound for the pairs that it accepts; along a sketch's rules no two states have equal values; and what a rule
// accepts is what the plain words say.
pub fn laws_hold() -> bool
    ensures answer { result ≡ true }
    ensures acceptance { AcceptanceSound }
    ensures order { OrderFree }
    ensures entries { EntriesSound }
    ensures states { StatesApart }
    ensures words { AcceptsDecided }
{
    true
}

// The examples of `specs/Examples.antt`.
pub fn examples_hold() -> bool
    ensures answer { result ≡ true }
    ensures examples { Examples }
{
    true
}
