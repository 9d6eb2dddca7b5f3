//! Laws of the lines of statuses. The function does nothing when it runs: its contract is the law.
ghost use Rattle.commands.specs.LineExamples.{LineExamples};

/// Lines beside near misses, as worked examples.
pub fn examples_of_lines()
    ensures { LineExamples }
{}
