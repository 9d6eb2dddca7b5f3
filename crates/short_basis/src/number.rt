//! Numbers of which some are not held.
use crate::halt::Halt;
use exact_field::{Field, is_zero};
use std::cmp::Ordering;

/// A number of the field, or one that is not held. What is calculated with one that is not held is
/// not held either, but for a product with 0.
#[derive(Clone, Copy, Debug)]
pub struct Number<F> {
    value: Option<F>,
}

/// The number of bits of a whole number's magnitude.
fn bits_of(a: i128) -> u32 {
    128u32.saturating_sub(a.unsigned_abs().leading_zeros())
}

impl<F: Field> Number<F> {
    /// The number 0.
    pub fn zero() -> Number<F> {
        Number::of(F::zero())
    }

    /// The number 1.
    pub fn one() -> Number<F> {
        Number::of(F::one())
    }

    /// A number of the field.
    pub fn of(value: F) -> Number<F> {
        Number { value: Some(value) }
    }

    /// A number that is not held.
    pub fn left() -> Number<F> {
        Number { value: None }
    }

    /// A whole number.
    pub fn whole(a: i128) -> Number<F> {
        match i64::try_from(a) {
            Ok(word) => Number {
                value: F::whole(word),
            },
            Err(_) => Number::over(a, 1),
        }
    }

    /// A whole number over a positive one.
    pub fn over(num: i128, den: i128) -> Number<F> {
        Number {
            value: F::of(num, den),
        }
    }

    /// The number, where it is held.
    pub fn held(self) -> Result<F, Halt> {
        self.value.ok_or(Halt::Long)
    }

    pub fn is_held(self) -> bool {
        self.value.is_some()
    }

    /// Whether it is held, and 0.
    pub fn is_zero(self) -> bool {
        match self.value {
            Some(x) => is_zero(x),
            None => false,
        }
    }

    /// Whether it is held, and 1.
    pub fn is_one(self) -> bool {
        match self.value {
            Some(x) => x == F::one(),
            None => false,
        }
    }

    /// -1, 0 or 1, as it is below, at or above 0.
    pub fn sign(self) -> Result<i8, Halt> {
        Ok(self.held()?.sign())
    }

    /// How it is to another.
    pub fn compare(self, other: Number<F>) -> Result<Ordering, Halt> {
        Ok(self.held()?.cmp(&other.held()?))
    }

    /// The negative.
    pub fn negative(self) -> Number<F> {
        match self.value {
            Some(x) => Number::of(x.neg()),
            None => self,
        }
    }

    /// The magnitude.
    pub fn magnitude(self) -> Number<F> {
        match self.value {
            Some(x) if x.sign() < 0 => Number::of(x.neg()),
            _ => self,
        }
    }

    /// The sum.
    pub fn plus(self, other: Number<F>) -> Number<F> {
        if self.is_zero() {
            return other;
        }
        if other.is_zero() {
            return self;
        }
        match (self.value, other.value) {
            (Some(x), Some(y)) => Number {
                value: x.add(y).ok(),
            },
            _ => Number::left(),
        }
    }

    /// The difference.
    pub fn less(self, other: Number<F>) -> Number<F> {
        if other.is_zero() {
            return self;
        }
        match (self.value, other.value) {
            (Some(x), Some(y)) => Number {
                value: x.sub(y).ok(),
            },
            _ => Number::left(),
        }
    }

    /// The product.
    pub fn times(self, other: Number<F>) -> Number<F> {
        if self.is_zero() || other.is_zero() {
            return Number::zero();
        }
        match (self.value, other.value) {
            (Some(x), Some(y)) => Number {
                value: x.mul(y).ok(),
            },
            _ => Number::left(),
        }
    }

    /// `self - x y`.
    pub fn less_product(self, x: Number<F>, y: Number<F>) -> Number<F> {
        self.less(x.times(y))
    }

    /// The quotient. That by 0 is not held.
    pub fn quotient(self, divisor: Number<F>) -> Number<F> {
        if self.is_zero() {
            return self;
        }
        match (self.value, divisor.value) {
            (Some(x), Some(y)) => quotient_of(x, y),
            _ => Number::left(),
        }
    }

    /// How many bits the longer of its parts has, and 0 where it is not held.
    pub fn bits(self) -> u32 {
        match self.value {
            Some(x) => bits_of(x.num()).max(bits_of(x.den())),
            None => 0,
        }
    }
}

/// The quotient of two numbers of the field.
fn quotient_of<F: Field>(x: F, y: F) -> Number<F> {
    if is_zero(y) {
        return Number::left();
    }
    Number {
        value: x.div(y).ok(),
    }
}
