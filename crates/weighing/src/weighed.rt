//! What is least for weights.

use exact_field::Left;
use frac128::{Frac, Vector};
use src_sink::{Items, NoMemory};

/// What is least for weights.
#[derive(Debug, Drop)]
pub enum Weighed {
    /// The feasible set is empty.
    Empty,
    /// The image is everything.
    Whole,
    /// Nothing is: the value goes down for ever in this direction.
    Unbounded { d: Vector },
    /// The least value, and the numbers of the points that have it, from 1.
    Least { value: Frac, points: Items<u32> },
}

/// Why what is least is not told.
#[derive(Debug, Drop)]
pub enum WeighEnd {
    /// The product with this item has an operation whose exact result is not held. The lines, the
    /// directions and then the points of the answer are numbered from 1.
    Left { item: u64, left: Left<Frac> },
    /// Memory was wanting.
    NoMemory,
}

impl From<NoMemory> for WeighEnd {
    ghost use Rattle.std.specs.Prelude.{◌≡◌};
    ghost use Rattle.weighing.specs.declared.weighed.WeighEnd.TheVariants.{NoMemory};

    ghost from_gives = { λ _ e. e ≡ NoMemory };

    fn from(_e: NoMemory) -> WeighEnd {
        WeighEnd::NoMemory
    }
}
