//! A fraction of few values, for tests.

ghost use Rattle.std.specs.Prelude.{◌≡◌, ◌<◌, IsTrue, unsigned_abs, refl};
ghost use Rattle.std.specs.Int.{IsGcd};
ghost use Rattle.std.specs.Ordering.{as_partial_cmp};
ghost use Rattle.exact_field.specs.Field.{AnswersHeld};
ghost use Rattle.exact_field.specs.Order.{same_ℚ, cmp_ℚ};
ghost use Rattle.exact_field.specs.Rational.{ℚ};
ghost use Rattle.exact_field.proofs.Comparison.{cmp_ℚ-total, same_ℚ-equivalence, same_ℚ-partial_equivalence, cmp_ℚ-partial_order, same_ℚ-matches_cmp};
ghost use Rattle.frac128.specs.Held.{is_held, is_tiny, tiny_zero, tiny_one, tiny_neg, tiny_small};

use crate::frac::Frac;
use exact_field::{Field, Left, Op};
use std::cmp::Ordering;
use std::marker::Model;

/// A reduced fraction whose numerator's magnitude and whose denominator are below 2^7. It
/// calculates as `Frac` does, and so small a type shows in a test what comes where a number is not
/// held.
#[derive(Clone, Copy, Debug)]
pub struct Tiny {
    num: i8,
    den: u8,
    ghost positive: { 0 < den },
    ghost lowest: { IsGcd (unsigned_abs num) den 1 },
}

impl Model for Tiny {
    ghost use Rattle.std.specs.Prelude.{◌<◌, ◌^◌, ℕ, unsigned_abs};
    ghost use Rattle.exact_field.specs.Rational.{ℚ, coded_ℚ};

    ghost Value = { ℚ };

    ghost coded = { coded_ℚ };

    ghost view = { λ f. record
        { num = f.num; den = f.den; positive = f.positive; lowest = f.lowest } };

    ghost invariant = { λ f. (unsigned_abs f.num < 2 ^ 7) × (f.den < 2 ^ 7) };

    ghost inverse = { λ q. record
        { num = q.num; den = q.den; positive = q.positive; lowest = q.lowest } };
}

impl Tiny {
    fn frac(self) -> Frac
        ensures value { result ≡ self }
        ensures tiny { IsTrue (is_tiny self) }
    {
        let negative = self.num < 0;
        Frac::with_sign(
            negative,
            u128::from(self.num.unsigned_abs()),
            u128::from(self.den),
        )
    }

    fn of_frac(exact: Frac) -> Tiny
        requires { IsTrue (is_tiny exact) }
        ensures { result ≡ exact }
    {
        let num = exact.num() as i8;
        let den = exact.den() as u8;
        Tiny { num, den }
    }

    /// The number, where its parts are below 2^7.
    fn fit(exact: Option<Frac>) -> Option<Tiny>
        ensures { (q : ℚ) → AnswersHeld (λ x. x) is_held q exact
            → AnswersHeld (λ x. x) is_tiny q result }
    {
        let exact = exact?;
        if exact.num().unsigned_abs() < 128 && exact.den() < 128 {
            Some(Tiny::of_frac(exact))
        } else {
            None
        }
    }
}

impl PartialEq for Tiny {
    ghost eq = { same_ℚ };

    ghost laws = { same_ℚ-partial_equivalence };

    fn eq(&self, other: &Tiny) -> bool {
        self.frac() == other.frac()
    }
}

impl Eq for Tiny {
    ghost laws = { same_ℚ-equivalence };
}

impl PartialOrd for Tiny {
    ghost partial_cmp = { as_partial_cmp cmp_ℚ };

    ghost laws = { cmp_ℚ-partial_order };

    fn partial_cmp(&self, other: &Tiny) -> Option<Ordering> {
        Some(self.cmp(other))
    }
}

impl Ord for Tiny {
    ghost cmp = { cmp_ℚ };

    ghost total = { cmp_ℚ-total };

    ghost matches_partial_cmp = { λ x y. refl };

    ghost matches_eq = { same_ℚ-matches_cmp };

    fn cmp(&self, other: &Tiny) -> Ordering {
        self.frac().cmp(&other.frac())
    }
}

impl Field for Tiny {
    ghost value = { λ q. q };

    ghost holds = { is_tiny };

    fn zero() -> Tiny {
        Tiny { num: 0, den: 1 }
    }

    fn one() -> Tiny {
        Tiny { num: 1, den: 1 }
    }

    fn whole(v: i64) -> Option<Tiny> {
        Tiny::fit(Frac::whole(v))
    }

    fn of(num: i128, den: i128) -> Option<Tiny> {
        if den <= 0 {
            return None;
        }
        Tiny::fit(Frac::reduce(num < 0, num.unsigned_abs(), den as u128))
    }

    fn num(self) -> i128 {
        i128::from(self.num)
    }

    fn den(self) -> i128 {
        i128::from(self.den)
    }

    fn neg(self) -> Tiny {
        Tiny::of_frac(self.frac().neg())
    }

    fn sign(self) -> i8 {
        self.frac().sign()
    }

    fn add(self, other: Tiny) -> Result<Tiny, Left<Tiny>> {
        let exact = self.frac().plus(other.frac());
        Tiny::fit(exact).ok_or(Left {
            op: Op::Add,
            a: self,
            b: other,
        })
    }

    fn sub(self, other: Tiny) -> Result<Tiny, Left<Tiny>> {
        let exact = self.frac().plus(other.frac().neg());
        Tiny::fit(exact).ok_or(Left {
            op: Op::Sub,
            a: self,
            b: other,
        })
    }

    fn mul(self, other: Tiny) -> Result<Tiny, Left<Tiny>> {
        let exact = self.frac().times(other.frac());
        Tiny::fit(exact).ok_or(Left {
            op: Op::Mul,
            a: self,
            b: other,
        })
    }

    fn div(self, other: Tiny) -> Result<Tiny, Left<Tiny>> {
        let exact = self.frac().times(other.frac().reciprocal());
        Tiny::fit(exact).ok_or(Left {
            op: Op::Div,
            a: self,
            b: other,
        })
    }

    fn holds_small() -> bool {
        false
    }

    /// No short way, so that tests with this type go entry by entry.
    fn short_dot(_row: &[Tiny], _vector: &[Tiny]) -> Option<Tiny> {
        None
    }

    ghost holds_zero = { tiny_zero };

    ghost holds_one = { tiny_one };

    ghost holds_neg = { tiny_neg };

    ghost small = { tiny_small };

    ghost one_form = { λ x y e. e };

    ghost same = { λ x y. refl };

    ghost ordered = { λ x y. refl };
}
