//! Meeting points by whole numbers: each vector over one denominator of its own.
ghost use Rattle.std.specs.Prelude.{◌≡◌, ◌≢◌, ◌<◌, ℤ, pos, ◌*ℤ◌, ◌<ℤ◌, All, IfErr, IfOk, IfSome, IsTrue, length, map};
ghost use Rattle.exact_field.specs.Over.{IsBelowLimit};
ghost use Rattle.exact_field.specs.Rational.{ℚ, zero_ℚ, inverse_ℚ, neg_ℚ, whole, ◌/ℚ◌, ◌<ℚ◌};
ghost use Rattle.polyhedra.specs.DoubleDescription.{norming, normed};
ghost use Rattle.polyhedra.specs.Vectors.{scaled};
ghost use Rattle.double_descr.specs.Steps.{IsHeld, between, meeting_steps, values};
ghost use Rattle.double_descr.specs.Wholes.{AreNumbersBetween, AreScalesOf, HoldsSmall, IsEntryOver};
ghost use Rattle.double_descr.specs.declared.steps.Stop.TheVariants.{NoMemory};

use crate::points::{norming_entry, without_sign};
use crate::scales::Scales;
use crate::steps::Stop;
use exact_field::Field;
use exact_field::over::{common_den, content, over, plus, ratio, times};
use std::alloc::Global;

/// The first number that is not 0, and 0 where there is none.
fn leading_number(numbers: &[i128]) -> i128 {
    for n in numbers {
        if *n != 0 {
            return *n;
        }
    }
    0
}

/// The magnitude of the number by which the list is normed, as a vector by an entry. No clause says
/// which one it is: the vector that comes out is tested.
fn norming_size(numbers: &[i128]) -> Option<i128>
    ensures { IfSome result (λ n. pos 0 <ℤ n) }
{
    let last = *numbers.last()?;
    let number = if last == 0 {
        leading_number(numbers)
    } else {
        last
    };
    let size = if number < 0 {
        number.checked_neg()?
    } else {
        number
    };
    if size > 0 { Some(size) } else { None }
}

/// The scales of a meeting point, where the numerators of the factor are below the limit.
fn scales_of<F: Field>(plus: &[F], minus: &[F], at_plus: F, at_minus: F) -> Option<Scales>
    requires below { F.value at_minus <ℚ zero_ℚ }
    ensures { IfSome result (AreScalesOf (F.value at_plus /ℚ neg_ℚ (F.value at_minus))) }
{
    let den = common_den(plus, at_plus)?;
    let other_den = common_den(minus, at_minus)?;
    let above = over(at_plus, den)?;
    let below = over(at_minus.neg(), other_den)?;
    let _factor = times(above, other_den)?;
    let scale = times(den, below)?;
    if scale <= 0 {
        return None;
    }
    Some(Scales {
        den,
        other_den,
        above,
        below,
        scale,
    })
}

/// The numerator of an entry of the meeting point over the scale.
fn entry_over<F: Field>(scales: Scales, x: F, y: F) -> Option<i128>
    ensures { (factor : ℚ) → AreScalesOf factor scales
        → IfSome result (IsEntryOver scales.scale factor (F.value x) (F.value y)) }
{
    let first = times(over(x, scales.den)?, scales.below)?;
    let second = times(scales.above, over(y, scales.other_den)?)?;
    plus(first, second)
}

/// Numbers that are to each other as the entries of the meeting point.
fn numbers_between<F: Field>(
    alloc: Global,
    plus: &[F],
    minus: &[F],
    at_plus: F,
    at_minus: F,
) -> Result<Option<Vec<i128>>, Stop<F>>
    requires full { HoldsSmall F.holds }
    requires same { length plus.now ≡ length minus.now }
    requires below { F.value at_minus <ℚ zero_ℚ }
    ensures between { IfOk result (λ o. IfSome o (λ ns. AreNumbersBetween F.holds (F.value at_plus)
        (F.value at_minus) (values F.value plus.now) (values F.value minus.now) ns.items)) }
    ensures stop { IfErr result (λ stop. stop ≡ NoMemory) }
{
    let Some(scales) = scales_of(plus, minus, at_plus, at_minus) else {
        return Ok(None);
    };
    let mut numbers = Vec::with_capacity(alloc, plus.len())?;
    for i in 0..plus.len() {
        match entry_over(scales, plus[i], minus[i]) {
            None => return Ok(None),
            Some(n) => numbers.push(n)?,
        }
    }
    Ok(Some(numbers))
}

/// A number as a product: with this divisor, or with 1 where it is none.
fn factors(n: i128, divisor: i128) -> (i128, i128)
    requires positive { pos 0 <ℤ n }
    requires divisor_positive { pos 0 <ℤ divisor }
    ensures first { pos 0 <ℤ result.0 }
    ensures second { pos 0 <ℤ result.1 }
    ensures product { result.1 *ℤ result.0 ≡ n }
{
    if n % divisor == 0 {
        (divisor, n / divisor)
    } else {
        (1, n)
    }
}

/// The quotients of whole numbers by one of them, where they are held.
fn ratios<F: Field>(alloc: Global, numbers: &[i128], by: i128) -> Result<Option<Vec<F>>, Stop<F>>
    requires positive { pos 0 <ℤ by }
    requires small { All IsBelowLimit numbers.now }
    ensures quotients { IfOk result (λ o. IfSome o (λ qs. values F.value qs.items
        ≡ scaled (inverse_ℚ (whole by)) (map whole numbers.now))) }
    ensures held { IfOk result (λ o. IfSome o (λ qs. All (λ q. IsTrue (F.holds q))
        (values F.value qs.items))) }
    ensures stop { IfErr result (λ stop. stop ≡ NoMemory) }
{
    let (common, rest) = factors(by, content::<F>(numbers, by));
    let mut out = Vec::with_capacity(alloc, numbers.len())?;
    for i in 0..numbers.len() {
        match ratio::<F>(numbers[i], by, common, rest) {
            None => return Ok(None),
            Some(quotient) => out.push(quotient)?,
        }
    }
    Ok(Some(out))
}

/// Parts of short numbers are below this: step by step they take less than over one denominator.
const SHORT: u128 = 1 << 30;

/// Whether the magnitudes of both parts are below 2^30.
fn is_short<F: Field>(x: F) -> bool {
    x.num().unsigned_abs() < SHORT && x.den().unsigned_abs() < SHORT
}

/// The point between two vectors at which a row is 0, normed, by whole numbers, where its values
/// there are long. `None` says nothing: then it is calculated step by step.
pub fn meeting_over<F: Field>(
    alloc: Global,
    plus: &[F],
    minus: &[F],
    at_plus: F,
    at_minus: F,
) -> Result<Option<Vec<F>>, Stop<F>>
    requires same { length plus.now ≡ length minus.now }
    requires below { F.value at_minus <ℚ zero_ℚ }
    requires not_zero { norming (between (F.value at_plus) (F.value at_minus)
        (values F.value plus.now) (values F.value minus.now))
        ≢ zero_ℚ }
    ensures held { IfOk result (λ o. IfSome o (λ z. All (IsHeld F.holds) (meeting_steps
        (F.value at_plus) (F.value at_minus) (values F.value plus.now)
        (values F.value minus.now)))) }
    ensures value { IfOk result (λ o. IfSome o (λ z. values F.value z.items
        ≡ normed (between (F.value at_plus) (F.value at_minus) (values F.value plus.now)
        (values F.value minus.now)))) }
    ensures stop { IfErr result (λ stop. stop ≡ NoMemory) }
{
    if !F::holds_small() || is_short(at_plus) && is_short(at_minus) {
        return Ok(None);
    }
    let Some(numbers) = numbers_between(alloc, plus, minus, at_plus, at_minus)? else {
        return Ok(None);
    };
    let Some(by) = norming_size(&numbers) else {
        return Ok(None);
    };
    let Some(vector) = ratios::<F>(alloc, &numbers, by)? else {
        return Ok(None);
    };
    if without_sign(norming_entry(&vector)) == F::one() {
        Ok(Some(vector))
    } else {
        Ok(None)
    }
}
