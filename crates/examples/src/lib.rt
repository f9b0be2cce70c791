// The worked examples, as one proposition over the list of them, and tests of whole searches.
#![tactic(auto)]

ghost use Rattle.std.specs.Prelude.{◌≡◌, length};
ghost use Rattle.std.specs.List.{AllByRecursion};
ghost use Rattle.examples.specs.Counter.{CounterAdmissible};
ghost use Rattle.examples.specs.Examples.{Settled, examples};
ghost use Rattle.examples.specs.Sketches.{SketchSettled, sketch_examples};

#[cfg(test)]
mod plain;
#[cfg(test)]
mod tests;

// How many examples are settled: all of them. Besides, an admissible set of keys exists for some problem and measure.
pub fn settled() -> usize
    ensures count { result ≡ length examples }
    ensures all { AllByRecursion Settled examples }
    ensures admissible { CounterAdmissible }
{
    13
}

// How many examples of sketches are settled: all of them.
pub fn sketches_settled() -> usize
    ensures count { result ≡ length sketch_examples }
    ensures all { AllByRecursion SketchSettled sketch_examples }
{
    5
}
