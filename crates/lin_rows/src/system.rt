//! Linear programs in equations.

use src_sink::Items;

/// Maximise `cost . z` subject to `a z = b` and `z >= 0`.
#[derive(Debug, Drop)]
pub struct System<F: Drop> {
    /// How many equations there are.
    pub rows: u32,
    /// How many unknowns there are.
    pub cols: u32,
    /// The coefficients, row by row.
    pub a: Items<F>,
    /// The right-hand side of each equation.
    pub b: Items<F>,
    /// The cost of each unknown.
    pub cost: Items<F>,
}
