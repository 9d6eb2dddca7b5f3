//! Products of vectors over one denominator.

ghost use Rattle.std.specs.Prelude.{◌≡◌, ◌*◌, ◌<◌, ◌^◌, ◌*ℤ◌, ℕ, unsigned_abs, length, IfSome, IsTrue};
ghost use Rattle.std.specs.Bool.{OnTrue};
ghost use Rattle.exact_field.specs.Field.{IsShortDot};
ghost use Rattle.exact_field.specs.Rational.{zero_ℚ, fraction, ◌+ℚ◌, ◌*ℚ◌};
ghost use Rattle.frac128.specs.Held.{is_held, IsNarrow};

use super::Frac;
use super::arith::{SHORT, sum_of_products, wide_product};
use crate::gcd::{gcd_words, quotient_words};

/// Parts below this have products below 2^60.
const NARROW: u128 = 1 << 30;

/// Denominators of sums are below this.
const DEN_LIMIT: u128 = 1 << 60;

/// Numerators of sums have magnitudes below this.
const NUM_LIMIT: u128 = 1 << 119;

/// A sum of products over one denominator, not always in lowest terms.
#[derive(Clone, Copy)]
pub struct Sum {
    num: i128,
    den: u64,
    ghost num_small: { unsigned_abs num < 2 ^ 119 },
    ghost den_small: { den < 2 ^ 60 },
    ghost positive: { 0 < den },
}

impl Frac {
    /// Whether the magnitude of the numerator and the denominator are below 2^30.
    fn is_narrow(self) -> bool
        ensures { OnTrue result (IsNarrow self) }
    {
        self.num.unsigned_abs() < NARROW && self.den < NARROW
    }
}

/// The product of two numbers of few bits.
fn narrow_product(a: i128, b: i128) -> i128
    requires a_small { unsigned_abs a < 2 ^ 30 }
    requires b_small { unsigned_abs b < 2 ^ 30 }
    ensures value { result ≡ a *ℤ b }
    ensures size { unsigned_abs result < 2 ^ 60 }
{
    i128::from(a as i64 * b as i64)
}

/// The quotient, where it is whole.
fn whole_quotient(x: u64, y: u64) -> Option<u64>
    requires { 0 < y }
    ensures { IfSome result (λ q. y * q ≡ x) }
{
    if x < y {
        return None;
    }
    let quotient = quotient_words(x, y);
    if y * quotient == x {
        Some(quotient)
    } else {
        None
    }
}

/// Two denominators over their greatest common divisor. Mostly one of the two is a multiple of the
/// other, and one division tells.
fn without_common(d: u64, e: u64) -> (u64, u64)
    requires d_positive { 0 < d }
    requires e_positive { 0 < e }
    ensures { (g : ℕ) × (g * result.0 ≡ d) × (g * result.1 ≡ e) }
{
    if let Some(times) = whole_quotient(d, e) {
        return (times, 1);
    }
    if let Some(times) = whole_quotient(e, d) {
        return (1, times);
    }
    let common = gcd_words(d, e);
    (quotient_words(d, common), quotient_words(e, common))
}

impl Sum {
    /// 0, the sum of no products.
    pub fn zero() -> Sum
        ensures { fraction result.num result.den ≡ zero_ℚ }
    {
        Sum { num: 0, den: 1 }
    }

    /// The sum of these parts, where the numerator is short enough.
    fn of(num: i128, den: u64) -> Option<Sum>
        requires den_small { den < 2 ^ 60 }
        requires positive { 0 < den }
        ensures { IfSome result (λ s. fraction s.num s.den ≡ fraction num den) }
    {
        if num.unsigned_abs() < NUM_LIMIT {
            Some(Sum { num, den })
        } else {
            None
        }
    }

    /// The sum and a fraction of another denominator, over a common multiple of the two.
    fn plus_other(self, num: i128, den: u64) -> Option<Sum>
        requires num_small { unsigned_abs num < 2 ^ 60 }
        requires den_small { den < 2 ^ 60 }
        requires positive { 0 < den }
        ensures { IfSome result
            (λ s. fraction s.num s.den ≡ fraction self.num self.den +ℚ fraction num den) }
    {
        let (left, right) = without_common(self.den, den);
        let multiple = wide_product(self.den, right);
        if multiple >= DEN_LIMIT || self.num.unsigned_abs() >= SHORT {
            return None;
        }
        let sum = sum_of_products(self.num, right, num, left);
        Sum::of(sum, multiple as u64)
    }

    /// The sum and a fraction.
    fn plus(self, num: i128, den: u64) -> Option<Sum>
        requires num_small { unsigned_abs num < 2 ^ 60 }
        requires den_small { den < 2 ^ 60 }
        requires positive { 0 < den }
        ensures { IfSome result
            (λ s. fraction s.num s.den ≡ fraction self.num self.den +ℚ fraction num den) }
    {
        if den == self.den {
            Sum::of(self.num + num, den)
        } else {
            self.plus_other(num, den)
        }
    }

    /// The sum and the product of two narrow fractions.
    fn plus_narrow(self, a: Frac, b: Frac) -> Option<Sum>
        requires a_narrow { IsNarrow a }
        requires b_narrow { IsNarrow b }
        ensures value { IfSome result
            (λ s. fraction s.num s.den ≡ fraction self.num self.den +ℚ a *ℚ b) }
        ensures held { IsTrue (is_held (a *ℚ b)) }
    {
        let num = narrow_product(a.num, b.num);
        let den = a.den as u64 * b.den as u64;
        self.plus(num, den)
    }

    /// The sum and one more product, where its parts and those of the factors are short enough.
    pub fn plus_product(self, a: Frac, b: Frac) -> Option<Sum>
        ensures value { IfSome result
            (λ s. fraction s.num s.den ≡ fraction self.num self.den +ℚ a *ℚ b) }
        ensures held { IfSome result (λ s. IsTrue (is_held (a *ℚ b))) }
    {
        if a.num == 0 || b.num == 0 {
            Some(self)
        } else if a.is_narrow() && b.is_narrow() {
            self.plus_narrow(a, b)
        } else {
            None
        }
    }

    /// The number in lowest terms.
    pub fn reduce(self) -> Option<Frac>
        ensures { IfSome result (λ q. q ≡ fraction self.num self.den) }
    {
        Frac::reduce(self.num < 0, self.num.unsigned_abs(), u128::from(self.den))
    }
}

/// The product of two vectors of one width, where each product of two entries and each sum of those
/// so far is short.
pub(super) fn dot(row: &[Frac], vector: &[Frac]) -> Option<Frac>
    requires { length row.now ≡ length vector.now }
    ensures { IsShortDot (λ q. q) is_held row.now vector.now result }
{
    let mut sum = Sum::zero();
    for i in 0..row.len() {
        sum = sum.plus_product(row[i], vector[i])?;
    }
    sum.reduce()
}
