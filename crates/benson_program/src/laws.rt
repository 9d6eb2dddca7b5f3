//! What an end of the linear programs `Feasible` and `Benson` shows of a problem. Each function is
//! a law: it does nothing, and its contract is the statement.
ghost use Rattle.benson_program.specs.Laws.{AnswersExclude, BensonBounded, BensonCut, BensonPreimage, BensonWhole, FeasibleEnds};

/// The ends of the program that asks whether the sides contradict each other.
pub fn feasible_ends()
    ensures { FeasibleEnds }
{}

/// An optimum of Benson's program is a cut.
pub fn benson_cut()
    ensures { BensonCut }
{}

/// Its multipliers are a pre-image of the start vector, where the value is not positive.
pub fn benson_preimage()
    ensures { BensonPreimage }
{}

/// Benson's program has no solution only where the image is everything, or empty.
pub fn benson_whole()
    ensures { BensonWhole }
{}

/// Where the duality vector is interior to the ordering cone, Benson's program is bounded.
pub fn benson_bounded()
    ensures { BensonBounded }
{}

/// Answers that exclude each other.
pub fn answers_exclude()
    ensures { AnswersExclude }
{}
