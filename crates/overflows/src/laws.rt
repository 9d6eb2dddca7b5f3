//! When an overflow is licensed, and what makes licences easy to give. Each function is a law: it
//! does nothing, and its contract is the statement.
ghost use Rattle.overflows.specs.ConeExamples.{WorkedCones};
ghost use Rattle.overflows.specs.Examples.{WorkedLicences};
ghost use Rattle.overflows.specs.Laws.{GeneratorLaws, LicenceLaws, OrthogonalVectors, OverflowLaws, TrailLaws};
ghost use Rattle.overflows.specs.ImageExamples.{WorkedImages};
ghost use Rattle.overflows.specs.LineExamples.{LineExamples};
ghost use Rattle.overflows.specs.PairExamples.{WorkedPairs};
ghost use Rattle.overflows.specs.FeasibleExamples.{WorkedFeasible};
ghost use Rattle.overflows.specs.Turns.{CutsAreBase, CutTurnsEnd, RowTurnsEnd};

/// How trails begin and grow, and what they stand for.
pub fn trails_grow()
    ensures { TrailLaws }
{}

/// What calls tell of their overflows is what a licence asks, place by place.
pub fn overflows_are_licensed()
    ensures { OverflowLaws }
{}

/// What is read off an elimination as orthogonal is orthogonal to the rows.
pub fn orthogonal_vectors()
    ensures { OrthogonalVectors }
{}

/// How live generators are made over rows, and that they are generators of the cone of the rows.
pub fn generators_are_made()
    ensures { GeneratorLaws }
{}

/// Licences from overflows, and those before a duality vector is known.
pub fn licences_are_given()
    ensures { LicenceLaws }
{}

/// What is read off an optimal end of Benson's program is a base cut.
pub fn cuts_are_base()
    ensures { CutsAreBase }
{}

/// The turns that add a cut of Benson's program end.
pub fn cut_turns_end()
    ensures { CutTurnsEnd }
{}

/// The turns that add the row of a choice or of a ray end.
pub fn row_turns_end()
    ensures { RowTurnsEnd }
{}

/// Overflows of a small file that are licensed, and near ones that are not.
pub fn worked_licences()
    ensures { WorkedLicences }
{}

/// Lists that are multiplied and vectors that are divided, and near ones that are not.
pub fn worked_pairs()
    ensures { WorkedPairs }
{}

/// Rows, generators and entries of the image, and near ones that are none.
pub fn worked_images()
    ensures { WorkedImages }
{}

/// Rows, generators and sums of an image with a line, and near ones that are none.
pub fn worked_lines()
    ensures { LineExamples }
{}

/// Feasible things that are no base things, and overflows with operands of their place that nothing
/// licenses.
pub fn worked_feasible()
    ensures { WorkedFeasible }
{}

/// What a vector of the ordering cone is multiplied with, and a bound with which it is not.
pub fn worked_cones()
    ensures { WorkedCones }
{}
