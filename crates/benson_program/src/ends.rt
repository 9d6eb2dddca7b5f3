//! How the programs of the sides end.
use src_sink::Items;

/// How the program ends that asks whether the sides contradict each other.
#[derive(Debug, Drop)]
pub enum FeasibleEnd<F: Drop> {
    /// They do, by a multiplier of at least 0 for each side (Farkas).
    Contradiction { u: Items<F> },
    /// They do not, and this point meets them all.
    Point { x: Items<F> },
}

/// How Benson's program ends.
#[derive(Debug, Drop)]
pub enum BensonEnd<F: Drop> {
    /// A solution of the greatest cost, and the multipliers that show it.
    Optimal {
        /// A value for each unknown.
        z: Items<F>,
        /// A multiplier for each equation.
        dual: Items<F>,
        /// The basis at which both are read off.
        basis: Items<u32>,
    },
    /// The equations have no solution without a negative entry.
    Empty {
        /// A multiplier for each equation, which show it (Farkas).
        dual: Items<F>,
        /// The basis at which they are read off.
        basis: Items<u32>,
    },
}
