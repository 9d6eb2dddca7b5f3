//! Laws of fractions. Each function does nothing when it runs: its contract is the law.

ghost use Rattle.frac128.specs.Laws.{OneNumberPerText};

/// A canonical text reads back as one number only.
pub fn canonical_text_is_of_one_number()
    ensures { OneNumberPerText }
{}
