//! What is wrong with an ordering cone.
use frac128::{Sparse, Vector};

/// The first fault of an ordering cone with its duality vector, and what shows it.
#[derive(Debug, Drop)]
pub enum ConeFault {
    /// The cone has no interior.
    NotSolid {
        /// A vector of the dual cone whose negative is in it too.
        w: Vector,
        /// In the dual form the multipliers that combine the cone's vectors to 0; w is the first of
        /// these vectors that it names.
        m: Sparse,
    },
    /// The cone contains a line.
    HasLine {
        /// A vector of the cone whose negative is in it too.
        d: Vector,
        /// For generators the multipliers that combine them to 0; d is the first generator that it
        /// names.
        m: Sparse,
    },
    /// The duality vector that is given is not interior to the cone.
    NotInterior {
        /// A vector of the dual cone whose product with the duality vector is at most 0.
        w: Vector,
        /// In the dual form the multipliers that combine the cone's vectors to w.
        v: Sparse,
    },
    /// No duality vector that is allowed has a positive last entry.
    LastNotPositive {
        /// In the dual form, where no vector is given, the multipliers that combine the cone's
        /// vectors to minus the last unit vector.
        m: Sparse,
    },
}
