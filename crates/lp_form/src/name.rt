//! The names of the programs, and what a solution is split into.
use src_sink::Items;

/// A linear program by its name, over the sides, the objectives and the ordering cone of a problem.
#[derive(Debug, Drop)]
pub enum LpName<F: Drop> {
    /// Multipliers that show that the sides contradict each other.
    Feasible,
    /// Benson's program at a point, or at a direction where `t` is false.
    Benson { v: Items<F>, t: bool },
    /// The best bound of a weight vector.
    Weight { w: Items<F> },
    /// An interior vector of the ordering cone.
    Interior,
    /// Multipliers that show that the ordering cone, or its dual, contains a line.
    Pointed,
}

/// A solution: the multipliers of the sides, the weight vector, and the multipliers that combine
/// the vectors of a cone in dual form to it. What the program does not have is empty.
#[derive(Debug, Drop)]
pub struct Parts<F: Drop> {
    pub u: Items<F>,
    pub w: Items<F>,
    pub v: Items<F>,
}
