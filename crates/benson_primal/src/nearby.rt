//! A vector near a generator with long entries, at which a cut is asked first.
ghost use Rattle.std.specs.Prelude.{◌≡◌, ◌≢◌, ◌≤◌, ◌↔◌, ◌+◌, IfOk, IfSome, IsTrue, length, map};
ghost use Rattle.exact_field.specs.Rational.{zero_ℚ, ◌<ℚ◌};
ghost use Rattle.exact_field.specs.Vector.{dot, entry};
ghost use Rattle.lineality.specs.Without.{open_count, with_zeros};
ghost use Rattle.outer_approx.specs.Cuts.{said_by};
ghost use Rattle.polyhedra.specs.Exactness.{row_of};

use exact_field::{Field, is_negative, is_zero};
use lin_rows::dot;
use lp_form::Cut;
use outer_approx::cut_row;
use src_sink::{Items, NoMemory};
use std::alloc::Global;

/// An entry is long where its numerator or denominator is of this magnitude.
const LONG: i128 = 1 << 60;

/// Long vectors are rounded to multiples of one part in this number.
const PARTS: i128 = 1 << 30;

/// Of longer numerators so much is cut off first.
const CUT_OFF: i128 = 1 << 24;

/// Whether a generator is a point: its last entry is not 0.
pub(crate) fn is_point<F: Field>(generator: &[F]) -> bool
    requires { 1 ≤ length generator.now }
    ensures { IsTrue result ↔ (entry (map F.value generator.now) (length generator.now) ≢ zero_ℚ) }
{
    !is_zero(generator[generator.len() - 1])
}

/// Whether an entry is long. No clause speaks of it.
fn is_long<F: Field>(x: F) -> bool {
    x.num() >= LONG || x.num() <= -LONG || x.den() >= LONG
}

/// A short number near `x`, if one is found. No clause speaks of how near it is.
pub(crate) fn round<F: Field>(x: F) -> Option<F> {
    let (num, den) = match x.num().checked_mul(PARTS) {
        Some(scaled) => (scaled, x.den()),
        None => ((x.num() / CUT_OFF).checked_mul(PARTS)?, x.den() / CUT_OFF),
    };
    F::of(num.checked_div(den)?, PARTS)
}

/// Another vector near `v`, mostly with shorter entries, if an entry of `v` is long and such a
/// vector is found.
pub(crate) fn vector_nearby<F: Field>(alloc: Global, v: &[F]) -> Result<Option<Items<F>>, NoMemory>
    ensures { IfOk result (λ r. IfSome r (λ near. length near ≡ length v.now)) }
{
    if !v.iter().any(|x| is_long(*x)) {
        return Ok(None);
    }
    let mut near = Items::new(alloc);
    for x in v {
        let Some(short) = round(*x) else {
            return Ok(None);
        };
        near.push(short)?;
    }
    if near.as_slice() == v {
        return Ok(None);
    }
    Ok(Some(near))
}

/// Whether a generator, without its entries at the places of lines, is seen to violate a cut: not
/// where the product with its row is not held.
pub(crate) fn violates<F: Field>(
    alloc: Global,
    places: &[bool],
    generator: &[F],
    cut: &Cut<F>,
) -> Result<bool, NoMemory>
    requires places { length places.now ≡ length cut.now.w }
    requires generator { length generator.now ≡ open_count places.now + 1 }
    ensures { IfOk result (λ b. IsTrue b →
        dot (row_of (said_by F.value cut.now)) (with_zeros places.now (map F.value generator.now))
        <ℚ zero_ℚ) }
{
    let row = cut_row(alloc, places, cut)?;
    match dot(row.as_slice(), generator) {
        Ok(product) => Ok(is_negative(product)),
        Err(_) => Ok(false),
    }
}
