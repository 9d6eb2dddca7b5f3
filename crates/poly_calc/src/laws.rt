//! What is true of the made problems. Each function is a law: it does nothing, and its contract is
//! the statement.
ghost use Rattle.poly_calc.specs.Examples.{IntervalsExample, PartsExample};
ghost use Rattle.poly_calc.specs.Laws.{JoinProjects, MapProjects, MeetProjects, SumProjects};

/// The projection of the problem for both is what is feasible for both.
pub fn meet_projects()
    ensures { MeetProjects }
{}

/// The projection of the problem for an image is the image.
pub fn map_projects()
    ensures { MapProjects }
{}

/// The projection of the problem for a sum is the sum.
pub fn sum_projects()
    ensures { SumProjects }
{}

/// The projection of the problem for a join is the join.
pub fn join_projects()
    ensures { JoinProjects }
{}

/// Parts of matrices, computed.
pub fn parts_example()
    ensures { PartsExample }
{}

/// The sets made of two intervals, computed.
pub fn intervals_example()
    ensures { IntervalsExample }
{}
