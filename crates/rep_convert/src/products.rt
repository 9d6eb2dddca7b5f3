//! Products that are formed to see that they can be.
ghost use Rattle.std.specs.Prelude.{◌≡◌, ◌≤◌, ℕ, All, IfErr, OnOk, length};
ghost use Rattle.frac128.specs.Held.{is_held};
ghost use Rattle.lin_rows.specs.Sums.{AreHeld};
ghost use Rattle.rep_convert.specs.Licensed.{AreMultiplied, IsConvLeft};
ghost use Rattle.rep_text.specs.declared.rep.Rep.{Rep};

use crate::fault::ConvFault;
use crate::licences::term_left;
use frac128::{Frac, Vector};
use overflows::sum_of_products;
use std::alloc::Global;

/// Forms the product of a row and a vector.
fn try_product(alloc: Global, row: &[Frac], v: &[Frac]) -> Result<(), ConvFault>
    requires same { length row.now ≡ length v.now }
    requires short { length row.now ≤ 4294967294 }
    ensures held { OnOk result (AreHeld is_held row.now v.now (length row.now)) }
    ensures left { (rep : Rep) → AreMultiplied rep row.now v.now
        → IfErr result (IsConvLeft is_held rep) }
{
    match sum_of_products(row, v) {
        Ok(_) => Ok(()),
        Err(fault) => Err(term_left(alloc, fault)),
    }
}

/// Forms the products of a row with vectors.
fn try_row(alloc: Global, row: &[Frac], vectors: &[Vector]) -> Result<(), ConvFault>
    requires same { All (λ v. length row.now ≡ length v) vectors.now }
    requires short { length row.now ≤ 4294967294 }
    ensures held { OnOk result
        (All (λ v. AreHeld is_held row.now v (length row.now)) vectors.now) }
    ensures left { (rep : Rep) → All (AreMultiplied rep row.now) vectors.now
        → IfErr result (IsConvLeft is_held rep) }
{
    for vector in vectors {
        try_product(alloc, row, vector.as_slice())?;
    }
    Ok(())
}

/// Forms the products of rows with vectors.
pub(crate) fn try_products(
    alloc: Global,
    rows: &[Vector],
    vectors: &[Vector],
) -> Result<(), ConvFault>
    requires same { All (λ r. All (λ v. length r ≡ length v) vectors.now) rows.now }
    ensures held { OnOk result
        (All (λ r. All (λ v. AreHeld is_held r v (length r)) vectors.now) rows.now) }
    ensures left { (rep : Rep) → All (λ r. All (AreMultiplied rep r) vectors.now) rows.now
        → IfErr result (IsConvLeft is_held rep) }
{
    for row in rows {
        try_row(alloc, row.as_slice(), vectors)?;
    }
    Ok(())
}
