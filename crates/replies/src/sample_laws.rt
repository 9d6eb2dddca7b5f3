//! Laws of sample files. Each function does nothing when it runs: its contract is the law.
ghost use Rattle.replies.specs.SampleLaws.{SamplesRead, BoundedAreSolved, SamplesAreSolved};

/// The text of a sample file reads as this file.
pub fn samples_read()
    ensures { SamplesRead }
{}

/// A file with a bounded feasible set that is not empty has vertices and facets to list.
pub fn bounded_are_solved()
    ensures { BoundedAreSolved }
{}

/// The right answer of a sample file lists its image.
pub fn samples_are_solved()
    ensures { SamplesAreSolved }
{}
