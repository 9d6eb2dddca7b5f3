//! A law of replies. The function does nothing when it runs: its contract is the law.
ghost use Rattle.replies.specs.Accepted.{ConversionsPass};

/// The log of a conversion is accepted for the same text, and gives what was converted.
pub fn conversions_pass()
    ensures { ConversionsPass }
{}
