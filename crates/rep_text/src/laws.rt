//! The laws of the texts of representations and of logs of conversions. Each function does nothing
//! when it runs: its contract is the law.
ghost use Rattle.rep_text.specs.Examples.{RepExamples};
ghost use Rattle.rep_text.specs.Laws.{OneConvReading, OneRepReading};

/// Each list of bytes is the text of a representation or has a first fault, never both, and but one
/// of either.
pub fn one_rep_reading()
    ensures { OneRepReading }
{}

/// Each list of bytes is the text of the log of a conversion or has a first fault, never both, and
/// but one of either.
pub fn one_conv_reading()
    ensures { OneConvReading }
{}

/// First faults of small texts of representations, and texts without one.
pub fn rep_examples()
    ensures { RepExamples }
{}
