// What a user of the format may rely on, as theorems over texts.
ghost use Rattle.std.specs.Prelude.{◌≡◌, true};
ghost use Rattle.problem.specs.Examples.{Examples};
ghost use Rattle.problem.specs.Laws.{LineNamed, FirstFaultDecides, SieveAlone};
ghost use Rattle.problem.specs.Order.{OrderFree};
ghost use Rattle.problem.specs.Written.{WhollyAccounted};

// A fault names a line of the text or the one behind its last; the first faulty line decides; the order of the lines
// inside the tables of actions, features and rules does not matter; a good text is the one that is written from its
// rows, so that no byte of it is ignored; and behind the last line only the sieve refuses.
pub fn laws_hold() -> bool
    ensures answer { result ≡ true }
    ensures named { LineNamed }
    ensures first { FirstFaultDecides }
    ensures order { OrderFree }
    ensures whole { WhollyAccounted }
    ensures sieve { SieveAlone }
{
    true
}

// The examples of `specs/Examples.antt`.
pub fn examples_hold() -> bool
    ensures answer { result ≡ true }
    ensures examples { Examples }
{
    true
}
