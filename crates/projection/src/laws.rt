//! What is true of associated problems. Each function is a law: it does nothing, and its contract
//! is the statement.
ghost use Rattle.projection.specs.Examples.{AssociatedExample, ProjectionExample};
ghost use Rattle.projection.specs.Laws.{AssociatedIsAssociated, LevelDirections, NeverWhole, PointsAreLevel, ProjectionIsCutOut, ProjectionIsHull, ProjectionIsSliceOf};

/// The associated problem has the sides of the file and the associated objectives.
pub fn associated_is_associated()
    ensures { AssociatedIsAssociated }
{}

/// The projection is a slice of the associated image.
pub fn projection_is_slice_of()
    ensures { ProjectionIsSliceOf }
{}

/// The associated image is not everything.
pub fn never_whole()
    ensures { NeverWhole }
{}

/// The lines of the associated image, and the vertices of its reduced part, lie in the slice.
pub fn points_are_level()
    ensures { PointsAreLevel }
{}

/// Which directions of the associated image lie in the slice, told without a sum.
pub fn level_directions()
    ensures { LevelDirections }
{}

/// The projection by its points, directions and lines.
pub fn projection_is_hull()
    ensures { ProjectionIsHull }
{}

/// The projection by its sides.
pub fn projection_is_cut_out()
    ensures { ProjectionIsCutOut }
{}

/// The objectives that are associated with one column and with two, computed.
pub fn associated_example()
    ensures { AssociatedExample }
{}

/// What the projection of a feasible set has, and what not, computed.
pub fn projection_example()
    ensures { ProjectionExample }
{}
