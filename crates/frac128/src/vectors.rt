//! Vectors, dense and sparse.
ghost use Rattle.std.specs.Prelude.{◌≡◌};
ghost use Rattle.frac128.specs.Sparse.{is_zero};

use crate::frac::Frac;
use exact_field::Field;
use src_sink::Items;

/// The entries of a vector, in their order.
pub type Vector = Items<Frac>;

/// A list of vectors.
pub type Vectors = Items<Vector>;

/// An entry of a sparse vector.
#[derive(Clone, Copy, Debug)]
pub struct Spot {
    /// The place, from 1.
    pub at: u32,
    pub value: Frac,
}

/// A vector that is 0 at all places that it does not name. Its places rise from 1, and no value is
/// 0.
pub type Sparse = Items<Spot>;

/// Whether a number is 0, and so has no place in a sparse vector.
pub fn is_zero(number: Frac) -> bool
    ensures { result ≡ is_zero number }
{
    number.num() == 0
}
