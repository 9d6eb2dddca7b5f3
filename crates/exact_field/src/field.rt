//! Exact fields: finite sets of rational numbers whose operations answer the exact value or say
//! that it is not held.

ghost use Rattle.std.specs.Prelude.{ℤ, pos, ◌≡◌, ◌≢◌, Bool, IsTrue, length, map};
ghost use Rattle.exact_field.specs.Field.{Answers, AnswersFraction, AnswersHeld, IsShortDot, IsSmall};
ghost use Rattle.exact_field.specs.Order.{cmp_ℚ, same_ℚ, sign_ℚ};
ghost use Rattle.exact_field.specs.Rational.{ℚ, zero_ℚ, one_ℚ, whole, ◌+ℚ◌, ◌-ℚ◌, ◌*ℚ◌, ◌/ℚ◌, neg_ℚ};
ghost use Rattle.exact_field.specs.declared.op.Op.TheVariants.{Add, Sub, Mul, Div};

use crate::op::{Left, Op};

/// Numbers of which each is a rational number in lowest terms, with one representation for each
/// value. A type holds some rational numbers, 0 and 1 among them and with each its negative, and an
/// operation answers the exact value wherever that is held. No call rounds, and no call takes
/// memory.
pub trait Field: Copy + Eq + Ord {
    /// The rational number that a value stands for.
    ghost value: { Self → ℚ };

    /// Whether the type holds a rational number.
    ghost holds: { ℚ → Bool };

    /// The number 0.
    fn zero() -> Self
        ensures { value result ≡ zero_ℚ };

    /// The number 1.
    fn one() -> Self
        ensures { value result ≡ one_ℚ };

    /// The whole number `v`, or `None` where it is not held.
    fn whole(v: i64) -> Option<Self>
        ensures { AnswersHeld value holds (whole v) result };

    /// The number `num / den`, or `None` where `den` is not positive or the number is not held.
    fn of(num: i128, den: i128) -> Option<Self>
        ensures { AnswersFraction value holds num den result };

    /// The numerator in lowest terms, with the sign. Each value is held.
    fn num(self) -> i128
        ensures part { result ≡ (value self).num }
        ensures held { IsTrue (holds (value self)) };

    /// The denominator in lowest terms, which is positive.
    fn den(self) -> i128
        ensures part { result ≡ pos (value self).den }
        ensures held { IsTrue (holds (value self)) };

    /// The negative, which is always held.
    fn neg(self) -> Self
        ensures { value result ≡ neg_ℚ (value self) };

    /// -1, 0 or 1, as the number is below, at or above 0.
    fn sign(self) -> i8
        ensures { result ≡ sign_ℚ (value self) };

    /// The exact sum, or the operands where it is not held.
    fn add(self, other: Self) -> Result<Self, Left<Self>>
        ensures { Answers value holds Add self other (value self +ℚ value other) result };

    /// The exact difference, likewise.
    fn sub(self, other: Self) -> Result<Self, Left<Self>>
        ensures { Answers value holds Sub self other (value self -ℚ value other) result };

    /// The exact product, likewise.
    fn mul(self, other: Self) -> Result<Self, Left<Self>>
        ensures { Answers value holds Mul self other (value self *ℚ value other) result };

    /// The exact quotient, likewise.
    fn div(self, other: Self) -> Result<Self, Left<Self>>
        requires { value other ≢ zero_ℚ }
        ensures { Answers value holds Div self other (value self /ℚ value other) result };

    /// Whether the type holds each number whose parts are small.
    fn holds_small() -> bool
        ensures { IsTrue result → (q : ℚ) → IsSmall q → IsTrue (holds q) };

    /// The product of two vectors of one width, calculated in a short way of the type's own. An
    /// answer says that each product of two entries is held and each sum of those so far, so that
    /// entry by entry the same comes out. `None` says nothing: then the product is calculated entry
    /// by entry.
    fn short_dot(row: &[Self], vector: &[Self]) -> Option<Self>
        requires { length row.now ≡ length vector.now }
        ensures { IsShortDot value holds (map value row.now) (map value vector.now) result };

    /// 0 is held.
    ghost holds_zero: { IsTrue (holds zero_ℚ) };

    /// 1 is held.
    ghost holds_one: { IsTrue (holds one_ℚ) };

    /// With a number its negative is held.
    ghost holds_neg: { (q : ℚ) → IsTrue (holds q) → IsTrue (holds (neg_ℚ q)) };

    /// What is held has a numerator of a magnitude below 2^120 and a denominator below 2^120.
    ghost small: { (q : ℚ) → IsTrue (holds q) → IsSmall q };

    /// One value has one representation.
    ghost one_form: { (x y : Self) → value x ≡ value y → x ≡ y };

    /// `==` compares the values.
    ghost same: { (x y : Self) → Self.eq x y ≡ same_ℚ (value x) (value y) };

    /// The order is that of the values.
    ghost ordered: { (x y : Self) → Self.cmp x y ≡ cmp_ℚ (value x) (value y) };
}
