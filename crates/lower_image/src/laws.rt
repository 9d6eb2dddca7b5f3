//! What the ends of the linear program of a weight show, and what the cone of dual vectors is,
//! which the rows of points and directions cut out. Each function is a law: it does nothing, and
//! its contract is the statement.
ghost use Rattle.lower_image.specs.Examples.{LowerExamples};
ghost use Rattle.lower_image.specs.Laws.{AllFacetsLaws, CertifiedAreFacets, LowerGeneratorLaws, LowerRowLaws, LowerStartLaws, LowerTurnLaws};
ghost use Rattle.lower_image.specs.Weights.{WeightBounded, WeightChoice, WeightCut, WeightRay};

/// An optimum of the program of a weight is a cut.
pub fn weight_cut()
    ensures { WeightCut }
{}

/// Its multipliers are a feasible point at which the cut is tight.
pub fn weight_choice()
    ensures { WeightChoice }
{}

/// The program of a weight has no solution only where the weight falls along a direction of the
/// feasible set.
pub fn weight_ray()
    ensures { WeightRay }
{}

/// The program of a weight is bounded where some point is feasible.
pub fn weight_bounded()
    ensures { WeightBounded }
{}

/// Base rows may be added, have full rank, and hold at the dual vector of each valid inequality.
pub fn lower_rows()
    ensures { LowerRowLaws }
{}

/// How rows begin, and that certified generators stay.
pub fn lower_start()
    ensures { LowerStartLaws }
{}

/// What generators stand for.
pub fn lower_generators()
    ensures { LowerGeneratorLaws }
{}

/// A generator that stands for no valid inequality gives a row that turns.
pub fn lower_turns()
    ensures { LowerTurnLaws }
{}

/// Once all generators are certified they are all facets.
pub fn certified_are_facets()
    ensures { CertifiedAreFacets }
{}

/// What follows where all facets are there.
pub fn from_all_facets()
    ensures { AllFacetsLaws }
{}

/// Rows, generators and facets of a small file, and near ones that are none.
pub fn lower_examples()
    ensures { LowerExamples }
{}
