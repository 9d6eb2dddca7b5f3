//! Fractions whose parts fit into words: their sums, products, quotients and order by word
//! arithmetic.

ghost use Rattle.std.specs.Prelude.{◌≡◌, ◌≢◌, ◌-◌, ◌<◌, ◌≤◌, ◌^◌, pos, ◌+ℤ◌, ◌*ℤ◌, unsigned_abs, IsTrue, IfSome};
ghost use Rattle.std.specs.Int.{IsGcd};
ghost use Rattle.exact_field.specs.Order.{cmp_ℚ, same_ℚ, sign_ℚ};
ghost use Rattle.exact_field.specs.Rational.{whole, zero_ℚ, ◌+ℚ◌, ◌*ℚ◌, ◌/ℚ◌, neg_ℚ};
ghost use Rattle.frac128.specs.Signed.{signed};
ghost use Rattle.tier_frac.specs.Size.{fit, is_small};

use crate::exact::Exact;
use frac128::gcd::{gcd, gcd_words, quotient, quotient_words};
use frac128::sign::{differ_in_sign, signed_number};
use frac128::{Frac, wide_product};
use std::cmp::Ordering;
use std::marker::Model;

/// A reduced fraction whose numerator and denominator fit into an `i64`. In contracts it is the
/// rational number that it stands for.
#[derive(Clone, Copy, Debug)]
pub(crate) struct Words {
    num: i64,
    den: u64,
    ghost positive: { 0 < den },
    ghost lowest: { IsGcd (unsigned_abs num) den 1 },
}

impl Model for Words {
    ghost use Rattle.std.specs.Prelude.{IsTrue};
    ghost use Rattle.exact_field.specs.Rational.{ℚ, coded_ℚ};
    ghost use Rattle.tier_frac.specs.Size.{fit};

    ghost Value = { ℚ };

    ghost coded = { coded_ℚ };

    ghost view = { λ w. record
        { num = w.num; den = w.den; positive = w.positive; lowest = w.lowest } };

    ghost invariant = { λ w. IsTrue (fit w.num w.den) };

    ghost inverse = { λ q. record
        { num = q.num; den = q.den; positive = q.positive; lowest = q.lowest } };
}

/// `a x`, of all its bits.
fn signed_wide(a: i64, x: u64) -> i128
    requires { x < 2 ^ 63 }
    ensures value { result ≡ a *ℤ pos x }
    ensures size { unsigned_abs result ≤ 2 ^ 126 - 2 ^ 63 }
{
    i128::from(a) * i128::from(x)
}

/// `a x + c y`.
fn sum_of_products(a: i64, x: u64, c: i64, y: u64) -> i128
    requires x_small { x < 2 ^ 63 }
    requires y_small { y < 2 ^ 63 }
    ensures { result ≡ a *ℤ pos x +ℤ c *ℤ pos y }
{
    signed_wide(a, x) + signed_wide(c, y)
}

impl Words {
    pub(crate) fn whole(v: i64) -> Words
        ensures value { result ≡ whole v }
        ensures small { IsTrue (is_small result) }
    {
        Words { num: v, den: 1 }
    }

    /// The number of this sign, magnitude and denominator in lowest terms.
    pub(crate) fn with_sign(negative: bool, num: u128, den: u128) -> Words
        requires fits { IsTrue (fit (signed negative num) den) }
        requires positive { 0 < den }
        requires lowest { IsGcd num den 1 }
        ensures num { result.num ≡ signed negative num }
        ensures den { result.den ≡ den }
    {
        let num = signed_number(negative, num) as i64;
        let den = den as u64;
        Words { num, den }
    }

    /// The numerator, with the sign.
    pub(crate) fn num(self) -> i64
        ensures part { result ≡ self.num }
        ensures small { IsTrue (is_small self) }
    {
        self.num
    }

    pub(crate) fn den(self) -> u64
        ensures part { result ≡ self.den }
        ensures small { IsTrue (is_small self) }
    {
        self.den
    }

    /// The same number as a fraction of the other size.
    pub(crate) fn frac(self) -> Frac
        ensures { result ≡ self }
    {
        let size = u128::from(self.num.unsigned_abs());
        Frac::with_sign(self.num < 0, size, u128::from(self.den))
    }

    /// The negative, where its numerator fits.
    pub(crate) fn neg(self) -> Option<Words>
        ensures { IfSome result (λ w. (w ≡ neg_ℚ self) × IsTrue (is_small w)) }
    {
        let den = self.den;
        let num = self.num.checked_neg()?;
        Some(Words { num, den })
    }

    /// -1, 0 or 1.
    pub(crate) fn sign(self) -> i8
        ensures { result ≡ sign_ℚ self }
    {
        if self.num < 0 {
            -1
        } else if self.num == 0 {
            0
        } else {
            1
        }
    }

    /// The sum of numbers with one denominator.
    fn plus_same(self, other: Words) -> Exact
        requires { self.den ≡ other.den }
        ensures { result ≡ self +ℚ other }
    {
        let sum = i128::from(self.num) + i128::from(other.num);
        Exact::reduce(sum < 0, sum.unsigned_abs(), u128::from(self.den))
    }

    /// The sum: with g the greatest common divisor of the denominators, t = a (d / g) + c (b / g)
    /// and k that of t and g, it is t / k over (b / g) (d / k).
    fn plus_other(self, other: Words) -> Exact
        ensures { result ≡ self +ℚ other }
    {
        let common = gcd_words(self.den, other.den);
        let left = quotient_words(self.den, common);
        let right = quotient_words(other.den, common);
        let sum = sum_of_products(self.num, right, other.num, left);
        let size = sum.unsigned_abs();
        let shared = gcd(size, u128::from(common));
        let num = quotient(size, shared);
        let den = wide_product(left, quotient_words(other.den, shared as u64));
        Exact::of(sum < 0, num, den)
    }

    pub(crate) fn plus(self, other: Words) -> Exact
        ensures { result ≡ self +ℚ other }
    {
        if self.den == other.den {
            self.plus_same(other)
        } else {
            self.plus_other(other)
        }
    }

    pub(crate) fn times(self, other: Words) -> Exact
        ensures { result ≡ self *ℚ other }
    {
        let negative = differ_in_sign(i128::from(self.num), i128::from(other.num));
        let size = self.num.unsigned_abs();
        let other_size = other.num.unsigned_abs();
        Exact::product(negative, size, self.den, other_size, other.den)
    }

    /// The quotient: the product with the reciprocal.
    pub(crate) fn over(self, other: Words) -> Exact
        requires { other ≢ zero_ℚ }
        ensures { result ≡ self /ℚ other }
    {
        let negative = differ_in_sign(i128::from(self.num), i128::from(other.num));
        let size = self.num.unsigned_abs();
        let other_size = other.num.unsigned_abs();
        Exact::product(negative, size, self.den, other.den, other_size)
    }

    /// Whether both are one number.
    pub(crate) fn same(self, other: Words) -> bool
        ensures { result ≡ same_ℚ self other }
    {
        self.num == other.num && self.den == other.den
    }

    /// The order: of the numerators where the denominators are equal, and else of the products
    /// across.
    pub(crate) fn compare(self, other: Words) -> Ordering
        ensures { result ≡ cmp_ℚ self other }
    {
        if self.den == other.den {
            return self.num.cmp(&other.num);
        }
        let left = signed_wide(self.num, other.den);
        let right = signed_wide(other.num, self.den);
        left.cmp(&right)
    }
}
