//! Numbers over one denominator, by their numerators, which are whole numbers below 2^120.
//!
//! A vector is mostly over one denominator that is hardly longer than those of its entries. Products
//! and sums of numerators then take no common divisor, where each one of fractions takes several.

ghost use Rattle.std.specs.Prelude.{ℤ, pos, ◌≡◌, ◌<ℤ◌, ◌+ℤ◌, ◌*ℤ◌, length, map, IfSome, IsTrue};
ghost use Rattle.exact_field.specs.Field.{IsShortDot};
ghost use Rattle.exact_field.specs.Over.{IsBelowLimit, IsOver, IsQuotient};

use crate::field::Field;

/// Magnitudes below this are those of parts of numbers that are held.
const LIMIT: u128 = 1 << 120;

/// A number whose magnitude is below the limit.
fn below_limit(n: i128) -> Option<i128>
    ensures { IfSome result (λ m. (m ≡ n) × IsBelowLimit m) }
{
    if n.unsigned_abs() < LIMIT {
        Some(n)
    } else {
        None
    }
}

/// The product, where it is below the limit.
pub fn times(a: i128, b: i128) -> Option<i128>
    ensures { IfSome result (λ n. (n ≡ a *ℤ b) × IsBelowLimit n) }
{
    below_limit(a.checked_mul(b)?)
}

/// The sum, where it is below the limit.
pub fn plus(a: i128, b: i128) -> Option<i128>
    ensures { IfSome result (λ n. (n ≡ a +ℤ b) × IsBelowLimit n) }
{
    below_limit(a.checked_add(b)?)
}

/// The quotient, where it is whole; mostly the two are one number.
fn whole_quotient(n: i128, by: i128) -> Option<i128>
    requires { pos 0 <ℤ by }
    ensures { IfSome result (λ q. q *ℤ by ≡ n) }
{
    if n == by {
        Some(1)
    } else if n % by == 0 {
        Some(n / by)
    } else {
        None
    }
}

/// The numerator of a number over a multiple of its denominator. `None` where it is no multiple or
/// the numerator is not below the limit.
pub fn over<F: Field>(x: F, den: i128) -> Option<i128>
    requires { pos 0 <ℤ den }
    ensures { IfSome result (λ n. IsOver den (F.value x) n) }
{
    let by = whole_quotient(den, x.den())?;
    times(x.num(), by)
}

/// A multiple of both numbers, the least if the field holds their quotient. No clause says that it
/// is a multiple: `over` tests that.
fn common_multiple<F: Field>(d: i128, e: i128) -> Option<i128>
    requires first { pos 0 <ℤ d }
    requires second { pos 0 <ℤ e }
    requires small { IsBelowLimit d }
    ensures { IfSome result (λ m. (pos 0 <ℤ m) × IsBelowLimit m) }
{
    if d == e || d % e == 0 {
        return Some(d);
    }
    let ratio = F::of(d, e)?;
    times(d, ratio.den())
}

/// A common denominator of all entries of a vector and of one more number. No clause says that it
/// is one: `over` tests that.
pub fn common_den<F: Field>(vector: &[F], other: F) -> Option<i128>
    ensures { IfSome result (λ d. (pos 0 <ℤ d) × IsBelowLimit d) }
{
    let mut den = other.den();
    for x in vector {
        den = common_multiple::<F>(den, x.den())?;
    }
    Some(den)
}

/// The greatest common divisor of two numbers, if the field holds their quotient, and else 1. No
/// clause says so: who divides by it tests that.
fn common_divisor<F: Field>(n: i128, of: i128) -> i128
    requires { pos 0 <ℤ of }
    ensures { pos 0 <ℤ result }
{
    match F::of(n, of) {
        Some(ratio) => (of / ratio.den()).max(1),
        None => 1,
    }
}

/// The greatest common divisor of a number and those of a list, as far as the field holds the
/// quotients. No clause says so: `ratio` tests that.
pub fn content<F: Field>(numbers: &[i128], of: i128) -> i128
    requires { pos 0 <ℤ of }
    ensures { pos 0 <ℤ result }
{
    let mut common = of;
    for n in numbers {
        if *n % common != 0 {
            common = common_divisor::<F>(*n, common);
        }
    }
    common
}

/// The quotient of two whole numbers, where it is held: the second is a product, whose first factor
/// mostly divides the first number too, and spares the field long numbers.
pub fn ratio<F: Field>(n: i128, by: i128, common: i128, rest: i128) -> Option<F>
    requires positive { pos 0 <ℤ common }
    requires rest_positive { pos 0 <ℤ rest }
    requires by { rest *ℤ common ≡ by }
    ensures { IfSome result (λ q. IsQuotient by n (F.value q) × IsTrue (F.holds (F.value q))) }
{
    match whole_quotient(n, common) {
        Some(left) => F::of(left, rest),
        None => F::of(n, by),
    }
}

/// The product of two vectors of one width, where over common denominators all numerators are below
/// the limit.
pub fn dot_over<F: Field>(row: &[F], vector: &[F]) -> Option<F>
    requires { length row.now ≡ length vector.now }
    ensures { IsShortDot F.value F.holds (map F.value row.now) (map F.value vector.now) result }
{
    if !F::holds_small() {
        return None;
    }
    let row_den = common_den(row, F::one())?;
    let den = common_den(vector, F::one())?;
    let both = times(row_den, den)?;
    let mut sum = 0;
    for i in 0..row.len() {
        let x = over(row[i], row_den)?;
        let y = over(vector[i], den)?;
        let term = times(x, y)?;
        sum = plus(sum, term)?;
    }
    F::of(sum, both)
}
