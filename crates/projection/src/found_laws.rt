//! What is true of what is found. Each function is a law: it does nothing, and its contract is the
//! statement.
ghost use Rattle.projection.specs.FoundExamples.{FoundExample};
ghost use Rattle.projection.specs.Right.{FoundIsRight};
ghost use Rattle.projection.specs.TextExamples.{WorkedTexts};

/// What is found of an answer that a log proves is the projection.
pub fn found_is_right()
    ensures { FoundIsRight }
{}

/// What is found of a half line, of nothing, and which vectors meet a side, computed.
pub fn found_example()
    ensures { FoundExample }
{}

/// The texts of a segment, of a line and of nothing, line by line.
pub fn worked_texts()
    ensures { WorkedTexts }
{}
