//! The field of fractions.

ghost use Rattle.std.specs.Prelude.{◌≡◌, ◌≢◌, ◌*◌, ◌<◌, ◌^◌, pos, ◌+ℤ◌, ◌*ℤ◌, unsigned_abs, Some, refl};
ghost use Rattle.std.specs.Bool.{OnTrue};
ghost use Rattle.exact_field.specs.Field.{AnswersHeld};
ghost use Rattle.exact_field.specs.Rational.{zero_ℚ, inverse_ℚ, ◌+ℚ◌, ◌*ℚ◌};
ghost use Rattle.frac128.specs.Held.{is_held, IsShort, held_zero, held_one, held_neg, held_small};

use super::Frac;
use super::dot::dot;
use crate::exact::exact_quotient;
use crate::gcd::{gcd, gcd_words, product, product_plus, quotient, quotient_words};
use crate::joint::numerator;
use crate::sign::differ_in_sign;
use exact_field::{Field, Left, Op};

/// Parts below this have sums and products that are held.
pub(super) const SHORT: u128 = 1 << 59;

/// The product, of all its bits.
pub fn wide_product(x: u64, y: u64) -> u128
    ensures { result ≡ x * y }
{
    u128::from(x) * u128::from(y)
}

/// `a x + c y`.
pub(super) fn sum_of_products(a: i128, x: u64, c: i128, y: u64) -> i128
    requires a_small { unsigned_abs a < 2 ^ 60 }
    requires c_small { unsigned_abs c < 2 ^ 60 }
    requires x_small { x < 2 ^ 60 }
    requires y_small { y < 2 ^ 60 }
    ensures value { result ≡ a *ℤ pos x +ℤ c *ℤ pos y }
    ensures size { unsigned_abs result < 2 ^ 121 }
{
    a * i128::from(x) + c * i128::from(y)
}

impl Frac {
    /// The sum where it is held.
    pub fn plus(self, other: Frac) -> Option<Frac>
        ensures { AnswersHeld (λ q. q) is_held (self +ℚ other) result }
    {
        if self.is_short() && other.is_short() {
            Some(self.short_sum(other))
        } else {
            self.long_sum(other)
        }
    }

    /// The product where it is held.
    pub fn times(self, other: Frac) -> Option<Frac>
        ensures { AnswersHeld (λ q. q) is_held (self *ℚ other) result }
    {
        if self.is_short() && other.is_short() {
            Some(self.short_product(other))
        } else {
            self.long_product(other)
        }
    }

    /// Whether the magnitude of the numerator and the denominator are below 2^59.
    fn is_short(self) -> bool
        ensures { OnTrue result (IsShort self) }
    {
        self.num.unsigned_abs() < SHORT && self.den < SHORT
    }

    /// The sum: with g the greatest common divisor of the denominators, t = a (d / g) + c (b / g)
    /// and k that of t and g, it is t / k over (b / g) (d / k).
    fn short_sum(self, other: Frac) -> Frac
        requires short { IsShort self }
        requires other_short { IsShort other }
        ensures { AnswersHeld (λ q. q) is_held (self +ℚ other) (Some result) }
    {
        let den = self.den as u64;
        let other_den = other.den as u64;
        let common = gcd_words(den, other_den);
        let left = quotient_words(den, common);
        let right = quotient_words(other_den, common);
        let sum = sum_of_products(self.num, right, other.num, left);
        let size = sum.unsigned_abs();
        let shared = gcd(size, u128::from(common));
        let num = quotient(size, shared);
        let den = wide_product(left, quotient_words(other_den, shared as u64));
        Frac::with_sign(sum < 0, num, den)
    }

    /// The product: each numerator is divided by what it has in common with the other denominator.
    fn short_product(self, other: Frac) -> Frac
        requires short { IsShort self }
        requires other_short { IsShort other }
        ensures { AnswersHeld (λ q. q) is_held (self *ℚ other) (Some result) }
    {
        let size = self.num.unsigned_abs() as u64;
        let other_size = other.num.unsigned_abs() as u64;
        let den = self.den as u64;
        let other_den = other.den as u64;
        let first = gcd_words(size, other_den);
        let second = gcd_words(other_size, den);
        let num = wide_product(
            quotient_words(size, first),
            quotient_words(other_size, second),
        );
        let den = wide_product(
            quotient_words(den, second),
            quotient_words(other_den, first),
        );
        Frac::with_sign(differ_in_sign(self.num, other.num), num, den)
    }

    /// The sum, as the short one, with t carried as quotient and remainder by g.
    fn long_sum(self, other: Frac) -> Option<Frac>
        ensures { AnswersHeld (λ q. q) is_held (self +ℚ other) result }
    {
        let common = gcd(self.den, other.den);
        let left = exact_quotient(self.den, common);
        let right = exact_quotient(other.den, common);
        let sum = numerator(self.num, right, other.num, left, common)?;
        let shared = gcd(sum.rest, common);
        let num = product_plus(
            sum.whole,
            exact_quotient(common, shared),
            exact_quotient(sum.rest, shared),
        )?;
        let den = product(left, exact_quotient(other.den, shared))?;
        Some(Frac::with_sign(sum.negative, num, den))
    }

    /// The product, as the short one.
    fn long_product(self, other: Frac) -> Option<Frac>
        ensures { AnswersHeld (λ q. q) is_held (self *ℚ other) result }
    {
        let size = self.num.unsigned_abs();
        let other_size = other.num.unsigned_abs();
        let first = gcd(size, other.den);
        let second = gcd(other_size, self.den);
        let num = product(
            exact_quotient(size, first),
            exact_quotient(other_size, second),
        )?;
        let den = product(
            exact_quotient(self.den, second),
            exact_quotient(other.den, first),
        )?;
        Some(Frac::with_sign(differ_in_sign(self.num, other.num), num, den))
    }

    /// The reciprocal, with the sign in the numerator.
    pub fn reciprocal(self) -> Frac
        requires { self ≢ zero_ℚ }
        ensures { result ≡ inverse_ℚ self }
    {
        Frac::with_sign(self.num < 0, self.den, self.num.unsigned_abs())
    }
}

impl Field for Frac {
    ghost value = { λ q. q };

    ghost holds = { is_held };

    fn zero() -> Frac {
        Frac::from(0)
    }

    fn one() -> Frac {
        Frac::from(1)
    }

    fn whole(v: i64) -> Option<Frac> {
        Some(Frac::from(v))
    }

    fn of(num: i128, den: i128) -> Option<Frac> {
        if den <= 0 {
            return None;
        }
        Frac::reduce(num < 0, num.unsigned_abs(), den as u128)
    }

    fn num(self) -> i128 {
        self.num
    }

    fn den(self) -> i128 {
        self.den as i128
    }

    fn neg(self) -> Frac {
        Frac::with_sign(self.num >= 0, self.num.unsigned_abs(), self.den)
    }

    fn sign(self) -> i8 {
        if self.num < 0 {
            -1
        } else if self.num == 0 {
            0
        } else {
            1
        }
    }

    fn add(self, other: Frac) -> Result<Frac, Left<Frac>> {
        self.plus(other).ok_or(Left {
            op: Op::Add,
            a: self,
            b: other,
        })
    }

    fn sub(self, other: Frac) -> Result<Frac, Left<Frac>> {
        self.plus(other.neg()).ok_or(Left {
            op: Op::Sub,
            a: self,
            b: other,
        })
    }

    fn mul(self, other: Frac) -> Result<Frac, Left<Frac>> {
        self.times(other).ok_or(Left {
            op: Op::Mul,
            a: self,
            b: other,
        })
    }

    fn div(self, other: Frac) -> Result<Frac, Left<Frac>> {
        self.times(other.reciprocal()).ok_or(Left {
            op: Op::Div,
            a: self,
            b: other,
        })
    }

    fn holds_small() -> bool {
        true
    }

    fn short_dot(row: &[Frac], vector: &[Frac]) -> Option<Frac> {
        dot(row, vector)
    }

    ghost holds_zero = { held_zero };

    ghost holds_one = { held_one };

    ghost holds_neg = { held_neg };

    ghost small = { held_small };

    ghost one_form = { λ x y e. e };

    ghost same = { λ x y. refl };

    ghost ordered = { λ x y. refl };
}
