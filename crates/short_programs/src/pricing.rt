//! Ways to choose which variable moves.

/// By what it is chosen which variable moves.
#[derive(Clone, Copy, Debug, PartialEq, Eq)]
pub enum Pricing {
    /// That which is farthest from its bound, or has the greatest cost.
    Farthest,
    /// The one with the least number.
    First,
    /// The one with the shortest value or cost.
    Shortest,
    /// The one with the fewest entries.
    Sparsest,
}

/// How many ways to choose there are.
pub const PRICINGS: usize = 4;

impl Pricing {
    /// The one of a number, which is counted from 0 again after the last one.
    pub fn of(number: usize) -> Pricing {
        match number % PRICINGS {
            0 => Pricing::Farthest,
            1 => Pricing::First,
            2 => Pricing::Shortest,
            _ => Pricing::Sparsest,
        }
    }
}
