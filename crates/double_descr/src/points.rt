//! Meeting points, and how vectors are normed.
ghost use Rattle.std.specs.Prelude.{◌≡◌, ◌≢◌, ◌<◌, length};
ghost use Rattle.exact_field.specs.Rational.{zero_ℚ, ◌<ℚ◌};
ghost use Rattle.polyhedra.specs.DoubleDescription.{leading, magnitude, norming, normed};
ghost use Rattle.double_descr.specs.Steps.{Runs, between, meeting_steps, values};

use crate::steps::{Stop, combination, quotients};
use crate::wholes::meeting_over;
use exact_field::{Field, is_negative, is_zero};
use std::alloc::Global;

/// The first entry that is not 0, and 0 where there is none.
fn leading_entry<F: Field>(vector: &[F]) -> F
    ensures { F.value result ≡ leading (values F.value vector.now) }
{
    for entry in vector {
        if !is_zero(*entry) {
            return *entry;
        }
    }
    F::zero()
}

/// The entry that norms a vector: the last one or, where that is 0, the first that is not.
pub fn norming_entry<F: Field>(vector: &[F]) -> F
    ensures { F.value result ≡ norming (values F.value vector.now) }
{
    if vector.is_empty() {
        return F::zero();
    }
    let last = vector[vector.len() - 1];
    if is_zero(last) {
        leading_entry(vector)
    } else {
        last
    }
}

/// A number without its sign.
pub fn without_sign<F: Field>(x: F) -> F
    ensures { F.value result ≡ magnitude (F.value x) }
{
    if is_negative(x) { x.neg() } else { x }
}

/// The point between two vectors at which a row is 0, normed, from the values of the row there.
pub fn meeting_point<F: Field>(
    alloc: Global,
    plus: &[F],
    minus: &[F],
    at_plus: F,
    at_minus: F,
) -> Result<Vec<F>, Stop<F>>
    requires same { length plus.now ≡ length minus.now }
    requires narrow { length plus.now < 4294967296 }
    requires below { F.value at_minus <ℚ zero_ℚ }
    requires not_zero { norming (between (F.value at_plus) (F.value at_minus)
        (values F.value plus.now) (values F.value minus.now))
        ≢ zero_ℚ }
    ensures { Runs F.value F.holds (meeting_steps (F.value at_plus) (F.value at_minus)
        (values F.value plus.now) (values F.value minus.now)) result (λ z. values F.value z.items
        ≡ normed (between (F.value at_plus) (F.value at_minus) (values F.value plus.now)
        (values F.value minus.now))) }
{
    if let Some(vector) = meeting_over(alloc, plus, minus, at_plus, at_minus)? {
        return Ok(vector);
    }
    let factor = match at_plus.div(at_minus.neg()) {
        Err(left) => return Err(Stop::Step(1, left)),
        Ok(factor) => factor,
    };
    let point = combination(alloc, factor, plus, minus, 1)?;
    let by = without_sign(norming_entry(&point));
    quotients(alloc, &point, by, 1 + 2 * plus.len() as u64)
}
