//! A fraction whose numerator's magnitude and whose denominator are below 2^120.

ghost use Rattle.std.specs.Prelude.{◌≡◌, ◌<◌, ◌^◌, unsigned_abs, refl};
ghost use Rattle.std.specs.Int.{IsGcd};
ghost use Rattle.std.specs.Ordering.{as_partial_cmp};
ghost use Rattle.exact_field.specs.Field.{AnswersHeld};
ghost use Rattle.exact_field.specs.Order.{same_ℚ, cmp_ℚ};
ghost use Rattle.exact_field.specs.Rational.{whole, fraction};
ghost use Rattle.exact_field.proofs.Comparison.{cmp_ℚ-total, same_ℚ-equivalence, same_ℚ-partial_equivalence, cmp_ℚ-partial_order, same_ℚ-matches_cmp};
ghost use Rattle.frac128.specs.Held.{is_held};
ghost use Rattle.frac128.specs.New.{Makes};
ghost use Rattle.frac128.specs.Signed.{signed};

mod arith;
mod dot;

use crate::exact::exact_quotient;
use crate::fault::FracFault;
use crate::gcd::gcd;
use crate::order::compare;
use crate::sign::{differ_in_sign, signed_number};
use crate::size::LIMIT;
pub use arith::wide_product;
pub use dot::Sum;
use exact_field::Field;
use std::cmp::Ordering;
use std::marker::Model;

/// A reduced fraction. In contracts it is the rational number that it stands for.
#[derive(Clone, Copy, Debug)]
pub struct Frac {
    num: i128,
    den: u128,
    ghost positive: { 0 < den },
    ghost lowest: { IsGcd (unsigned_abs num) den 1 },
}

impl Model for Frac {
    ghost use Rattle.std.specs.Prelude.{◌<◌, ◌^◌, ℕ, unsigned_abs};
    ghost use Rattle.exact_field.specs.Rational.{ℚ, coded_ℚ};

    ghost Value = { ℚ };

    ghost coded = { coded_ℚ };

    ghost view = { λ f. record
        { num = f.num; den = f.den; positive = f.positive; lowest = f.lowest } };

    ghost invariant = { λ f. (unsigned_abs f.num < 2 ^ 120) × (f.den < 2 ^ 120) };

    ghost inverse = { λ q. record
        { num = q.num; den = q.den; positive = q.positive; lowest = q.lowest } };
}

impl Frac {
    /// The number `num / den`, reduced and with a positive denominator.
    pub fn new(num: i128, den: i128) -> Result<Frac, FracFault>
        ensures { Makes num den result }
    {
        if den == 0 {
            return Err(FracFault::ZeroDen);
        }
        Frac::reduce(
            differ_in_sign(num, den),
            num.unsigned_abs(),
            den.unsigned_abs(),
        )
        .ok_or(FracFault::Wide)
    }

    /// The number of this sign, magnitude and denominator, where it is held.
    pub(crate) fn reduce(negative: bool, num: u128, den: u128) -> Option<Frac>
        requires { 0 < den }
        ensures { AnswersHeld (λ q. q) is_held (fraction (signed negative num) den) result }
    {
        let common = gcd(num, den);
        let num = exact_quotient(num, common);
        let den = exact_quotient(den, common);
        if num < LIMIT && den < LIMIT {
            Some(Frac::with_sign(negative, num, den))
        } else {
            None
        }
    }

    /// The number of this sign, magnitude and denominator in lowest terms.
    pub fn with_sign(negative: bool, num: u128, den: u128) -> Frac
        requires num_small { num < 2 ^ 120 }
        requires den_small { den < 2 ^ 120 }
        requires positive { 0 < den }
        requires lowest { IsGcd num den 1 }
        ensures num { result.num ≡ signed negative num }
        ensures den { result.den ≡ den }
    {
        let num = signed_number(negative, num);
        Frac { num, den }
    }
}

/// The number of any exact field as a fraction: what a field holds has parts below 2^120.
pub fn frac_of<F: Field>(x: F) -> Frac
    ensures { result ≡ F.value x }
{
    let num = x.num();
    let den = x.den();
    Frac::with_sign(num < 0, num.unsigned_abs(), den as u128)
}

impl From<i64> for Frac {
    ghost from_gives = { λ v f. f ≡ whole v };

    fn from(v: i64) -> Frac {
        Frac {
            num: i128::from(v),
            den: 1,
        }
    }
}

impl PartialEq for Frac {
    ghost eq = { same_ℚ };

    ghost laws = { same_ℚ-partial_equivalence };

    fn eq(&self, other: &Frac) -> bool {
        self.num == other.num && self.den == other.den
    }
}

impl Eq for Frac {
    ghost laws = { same_ℚ-equivalence };
}

impl PartialOrd for Frac {
    ghost partial_cmp = { as_partial_cmp cmp_ℚ };

    ghost laws = { cmp_ℚ-partial_order };

    fn partial_cmp(&self, other: &Frac) -> Option<Ordering> {
        Some(self.cmp(other))
    }
}

impl Ord for Frac {
    ghost cmp = { cmp_ℚ };

    ghost total = { cmp_ℚ-total };

    ghost matches_partial_cmp = { λ x y. refl };

    ghost matches_eq = { same_ℚ-matches_cmp };

    fn cmp(&self, other: &Frac) -> Ordering {
        if self.den == other.den {
            return self.num.cmp(&other.num);
        }
        let size = self.num.unsigned_abs();
        let other_size = other.num.unsigned_abs();
        match (self.num < 0, other.num < 0) {
            (false, false) => compare(size, self.den, other_size, other.den),
            (true, true) => compare(other_size, other.den, size, self.den),
            (true, false) => Ordering::Less,
            (false, true) => Ordering::Greater,
        }
    }
}
