//! What is true of conversions. Each function is a law: it does nothing, and its contract is the
//! statement.
ghost use Rattle.rep_conv.specs.Examples.{ConversionExamples};
ghost use Rattle.rep_conv.specs.Laws.{ConversionIsRight, ConversionKeepsSet, EventsAreRules, OneOther, RulesKeepDescription};

/// No event of the log of a conversion fails exactly where all entries meet their rules and the
/// result of each step is held.
pub fn events_are_rules()
    ensures { EventsAreRules }
{}

/// The live generators describe the cone of the rows in use, beside the lines.
pub fn rules_keep_description()
    ensures { RulesKeepDescription }
{}

/// A conversion keeps the set.
pub fn conversion_keeps_set()
    ensures { ConversionKeepsSet }
{}

/// A conversion gives the other representation of the same set, and no row of it can be left out.
pub fn conversion_is_right()
    ensures { ConversionIsRight }
{}

/// What a conversion gives depends on the set alone.
pub fn one_other()
    ensures { OneOther }
{}

/// Representations, their rows, and logs of conversions, whole and with faults, computed.
pub fn conversion_examples()
    ensures { ConversionExamples }
{}
