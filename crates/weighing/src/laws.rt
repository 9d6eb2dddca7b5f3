//! What is true of weights. Each function is a law: it does nothing, and its contract is the
//! statement.
ghost use Rattle.weighing.specs.Examples.{WorkedSets, WorkedTexts, WorkedWeighing};
ghost use Rattle.weighing.specs.Laws.{PointsAreEnough, WeighedIsRight, WeightsAreHull, WeightSetsAreTight, ProvedAreWeightSets};

/// A value that no point has less than, no direction goes down from and no line changes is lowest.
pub fn points_are_enough()
    ensures { PointsAreEnough }
{}

/// What a weighing answers is least in the image.
pub fn weighed_is_right()
    ensures { WeighedIsRight }
{}

/// The weights for which a point is lowest are the means of its facets' normals.
pub fn weights_are_hull()
    ensures { WeightsAreHull }
{}

/// The facets that are told of a point are those that are tight at it.
pub fn weight_sets_are_tight()
    ensures { WeightSetsAreTight }
{}

/// The facets that are told of a point are those whose normals make it least.
pub fn proved_are_weight_sets()
    ensures { ProvedAreWeightSets }
{}

/// The facets that are told of the points of a small image, computed.
pub fn worked_sets()
    ensures { WorkedSets }
{}

/// Which points have a value, and where a weighing goes on, computed.
pub fn worked_weighing()
    ensures { WorkedWeighing }
{}

/// The texts of weights and of weighings, line by line.
pub fn worked_texts()
    ensures { WorkedTexts }
{}
