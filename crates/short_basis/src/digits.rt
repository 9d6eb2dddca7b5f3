//! The sign of a sum by its digits, where the sum itself is too long.
use crate::halt::Halt;
use exact_field::Field;
use std::alloc::Global;
use std::cmp::Ordering;
use whole_programs::{product, sum};

/// A whole number times a number of the field.
#[derive(Clone, Copy)]
pub struct Multiple<F> {
    pub by: i128,
    pub value: F,
}

/// A number by its greatest whole number and a remainder, over a positive divisor.
#[derive(Clone, Copy)]
struct Mixed {
    whole: i128,
    rest: u128,
}

/// A remainder over a divisor.
#[derive(Clone, Copy)]
struct Rest {
    rest: u128,
    by: u128,
}

/// The quotient of two positive numbers and the remainder.
fn divide(a: u128, by: u128) -> Result<Mixed, Halt> {
    let whole = a.checked_div(by).ok_or(Halt::Long)?;
    let rest = a.checked_rem(by).ok_or(Halt::Long)?;
    let whole = i128::try_from(whole).map_err(|_e| Halt::Long)?;
    Ok(Mixed { whole, rest })
}

/// A whole number by its quotient by a divisor, rounded down, and the remainder.
fn mixed_of(a: i128, by: u128) -> Result<Mixed, Halt> {
    let mixed = divide(a.unsigned_abs(), by)?;
    if a >= 0 {
        return Ok(mixed);
    }
    let down = 0i128.saturating_sub(mixed.whole);
    if mixed.rest == 0 {
        return Ok(Mixed {
            whole: down,
            rest: 0,
        });
    }
    Ok(Mixed {
        whole: down.saturating_sub(1),
        rest: by.saturating_sub(mixed.rest),
    })
}

/// Sixteen times a number, and a digit times another one.
fn next_digit(total: Mixed, one: Mixed, digit: u128, by: u128) -> Result<Mixed, Halt> {
    let rests = times(total.rest, 16)?
        .checked_add(times(one.rest, digit)?)
        .ok_or(Halt::Long)?;
    let carry = divide(rests, by)?;
    let own = product(one.whole, digit.cast_signed())?;
    Ok(Mixed {
        whole: sum(sum(product(total.whole, 16)?, own)?, carry.whole)?,
        rest: carry.rest,
    })
}

/// The product, where it fits.
fn times(a: u128, b: u128) -> Result<u128, Halt> {
    a.checked_mul(b).ok_or(Halt::Long)
}

/// A whole number times a fraction, four bits of the number a turn, so that nothing wider than 128
/// bits is made.
fn multiply(num: i128, by: u128, factor: u128) -> Result<Mixed, Halt> {
    let one = mixed_of(num, by)?;
    let mut total = Mixed { whole: 0, rest: 0 };
    for turn in 0..32u32 {
        let digit = factor.wrapping_shr(124u32.saturating_sub(turn.saturating_mul(4))) & 15;
        if digit != 0 || total.whole != 0 || total.rest != 0 {
            total = next_digit(total, one, digit, by)?;
        }
    }
    Ok(total)
}

/// A sum by a whole number and what is left over divisors.
#[derive(Drop)]
struct Digits {
    whole: i128,
    rests: Vec<Rest>,
}

impl Digits {
    /// Adds a multiple, and answers how many bits its divisor has.
    fn add<F: Field>(&mut self, multiple: Multiple<F>) -> Result<u32, Halt> {
        let num = multiple.value.num();
        let num = if multiple.by < 0 {
            0i128.saturating_sub(num)
        } else {
            num
        };
        let by = multiple.value.den().unsigned_abs();
        let mixed = multiply(num, by, multiple.by.unsigned_abs())?;
        self.whole = sum(self.whole, mixed.whole)?;
        if mixed.rest == 0 {
            return Ok(0);
        }
        self.rests.push(Rest {
            rest: mixed.rest,
            by,
        })?;
        Ok(128u32.saturating_sub(by.leading_zeros()))
    }

    /// The sign, where the whole number tells it.
    fn sign(&self) -> Option<i8> {
        if self.rests.is_empty() {
            return Some(sign_of(self.whole));
        }
        if self.whole >= 0 {
            return Some(1);
        }
        let count = i128::try_from(self.rests.len()).unwrap_or(i128::MAX);
        if self.whole <= 0i128.saturating_sub(count) {
            return Some(-1);
        }
        None
    }

    /// The same sum times 256.
    fn shift(&mut self, alloc: Global) -> Result<(), Halt> {
        let mut whole = product(self.whole, 256)?;
        let mut rests = Vec::new(alloc);
        for rest in &self.rests {
            let mixed = divide(times(rest.rest, 256)?, rest.by)?;
            whole = sum(whole, mixed.whole)?;
            if mixed.rest != 0 {
                rests.push(Rest {
                    rest: mixed.rest,
                    by: rest.by,
                })?;
            }
        }
        self.whole = whole;
        self.rests = rests;
        Ok(())
    }
}

fn sign_of(a: i128) -> i8 {
    match a.cmp(&0) {
        Ordering::Less => -1,
        Ordering::Equal => 0,
        Ordering::Greater => 1,
    }
}

/// The sign of a sum of multiples, which may be too long to be held: -1, 0 or 1. Its digits are
/// made one after the other until they tell it. Where none does as long as the product of the
/// divisors, the sum is 0.
pub fn sign_of_sum<F: Field>(alloc: Global, list: &[Multiple<F>]) -> Result<i8, Halt> {
    let mut digits = Digits {
        whole: 0,
        rests: Vec::new(alloc),
    };
    let mut bits = 16u32;
    for multiple in list {
        bits = bits.saturating_add(digits.add(*multiple)?);
    }
    for _turn in 0..(bits / 8).saturating_add(1) {
        if let Some(sign) = digits.sign() {
            return Ok(sign);
        }
        digits.shift(alloc)?;
    }
    Ok(0)
}
