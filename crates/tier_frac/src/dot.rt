//! Products of vectors over one denominator.

ghost use Rattle.std.specs.Prelude.{◌≡◌, length};
ghost use Rattle.exact_field.specs.Field.{IsShortDot};
ghost use Rattle.frac128.specs.Held.{is_held};

use crate::tier::Tier;
use frac128::Sum;

/// The product of two vectors of one width, where each product of two entries and each sum of
/// those so far is short.
pub(crate) fn dot(row: &[Tier], vector: &[Tier]) -> Option<Tier>
    requires { length row.now ≡ length vector.now }
    ensures { IsShortDot (λ q. q) is_held row.now vector.now result }
{
    let mut sum = Sum::zero();
    for i in 0..row.len() {
        sum = sum.plus_product(row[i].frac(), vector[i].frac())?;
    }
    Some(Tier::from_frac(sum.reduce()?))
}
