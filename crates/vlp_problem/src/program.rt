//! The linear programs that are asked of a vector linear program.
use frac128::Vector;

/// A linear program by its name, over the sides, the objectives and the ordering cone of a file.
#[derive(Debug, Drop)]
pub enum Program {
    /// Multipliers that show that the sides contradict each other.
    Feasible,
    /// Benson's program at a point, or at a direction where `t` is false.
    Benson { v: Vector, t: bool },
    /// The best bound of a weight vector.
    Weight { w: Vector },
    /// An interior vector of the ordering cone.
    Interior,
    /// Multipliers that show that the ordering cone contains a line.
    Pointed,
}
