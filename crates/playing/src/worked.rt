//! The definitions at work on small days, as one group of facts.

ghost use Rattle.playing.specs.Examples.{WorkedExamples};

/// Shows the definitions at work on the worked examples; there is nothing to run.
pub fn worked_examples()
    ensures { WorkedExamples }
{}
