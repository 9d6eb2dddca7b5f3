//! The law that the answers exclude each other.
ghost use Rattle.recession.specs.First.{FirstAnswersExclude};

use exact_field::Field;

/// No two kinds of answers hold of one task. It does nothing: its contract is the statement.
pub fn first_answers_exclude<F: Field>()
    ensures { FirstAnswersExclude F.value F.holds }
{}
