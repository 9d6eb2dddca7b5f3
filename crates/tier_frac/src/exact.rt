//! Numbers in lowest terms as operations on words give them, before it is known which size holds
//! them.

ghost use Rattle.std.specs.Prelude.{◌≡◌, ◌*◌, ◌<◌, unsigned_abs};
ghost use Rattle.std.specs.Int.{IsGcd};
ghost use Rattle.exact_field.specs.Field.{AnswersHeld};
ghost use Rattle.exact_field.specs.Rational.{fraction};
ghost use Rattle.frac128.specs.Held.{is_held};
ghost use Rattle.frac128.specs.Signed.{signed};
ghost use Rattle.tier_frac.specs.Size.{fit, is_small};

use crate::words::Words;
use exact_field::Field;
use frac128::gcd::{gcd, gcd_words, quotient, quotient_words};
use frac128::{Frac, LIMIT, wide_product};
use std::marker::Model;

/// Numerators and denominators that fit into an `i64` are below this, but for the least numerator.
const HALF: u128 = 1 << 63;

/// A number by its sign, its magnitude and its denominator in lowest terms, each part of at most
/// 128 bits. In contracts it is the rational number that it stands for.
#[derive(Drop)]
pub(crate) struct Exact {
    negative: bool,
    num: u128,
    den: u128,
    ghost positive: { 0 < den },
    ghost lowest: { IsGcd (unsigned_abs (signed negative num)) den 1 },
}

impl Model for Exact {
    ghost use Rattle.exact_field.specs.Rational.{ℚ, coded_ℚ};
    ghost use Rattle.frac128.specs.Signed.{signed};

    ghost Value = { ℚ };

    ghost coded = { coded_ℚ };

    ghost view = { λ e. record {
      num = signed e.negative e.num;
      den = e.den;
      positive = e.positive;
      lowest = e.lowest;
    } };
}

/// Whether both parts fit into an `i64`.
fn fits(negative: bool, num: u128, den: u128) -> bool
    ensures { result ≡ fit (signed negative num) den }
{
    den < HALF && (num < HALF || negative && num == HALF)
}

impl Exact {
    /// The number of these parts, which are in lowest terms.
    pub(crate) fn of(negative: bool, num: u128, den: u128) -> Exact
        requires positive { 0 < den }
        requires lowest { IsGcd num den 1 }
        ensures num { result.num ≡ signed negative num }
        ensures den { result.den ≡ den }
    {
        Exact { negative, num, den }
    }

    /// The number of these parts, reduced.
    pub(crate) fn reduce(negative: bool, num: u128, den: u128) -> Exact
        requires { 0 < den }
        ensures { result ≡ fraction (signed negative num) den }
    {
        let common = gcd(num, den);
        Exact::of(negative, quotient(num, common), quotient(den, common))
    }

    /// The product of `x / b` and `y / d`, which are in lowest terms: each numerator is divided by
    /// what it has in common with the other denominator.
    pub(crate) fn product(negative: bool, x: u64, b: u64, y: u64, d: u64) -> Exact
        requires b_positive { 0 < b }
        requires d_positive { 0 < d }
        requires lowest { IsGcd x b 1 }
        requires other_lowest { IsGcd y d 1 }
        ensures { result ≡ fraction (signed negative (x * y)) (b * d) }
    {
        let first = gcd_words(x, d);
        let second = gcd_words(y, b);
        let num = wide_product(quotient_words(x, first), quotient_words(y, second));
        let den = wide_product(quotient_words(b, second), quotient_words(d, first));
        Exact::of(negative, num, den)
    }

    pub(crate) fn of_frac(value: Frac) -> Exact
        ensures { result ≡ value }
    {
        let num = value.num();
        let den = value.den();
        Exact::of(num < 0, num.unsigned_abs(), den as u128)
    }

    /// The number in words, where both parts fit into an `i64`.
    pub(crate) fn words(&self) -> Option<Words>
        ensures { AnswersHeld (λ q. q) is_small self.now result }
    {
        if fits(self.negative, self.num, self.den) {
            Some(Words::with_sign(self.negative, self.num, self.den))
        } else {
            None
        }
    }

    /// The number as a fraction, where it is held.
    pub(crate) fn frac(&self) -> Option<Frac>
        ensures { AnswersHeld (λ q. q) is_held self.now result }
    {
        if self.num < LIMIT && self.den < LIMIT {
            Some(Frac::with_sign(self.negative, self.num, self.den))
        } else {
            None
        }
    }
}
