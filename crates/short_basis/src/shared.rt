//! Numbers over one denominator.
use crate::halt::Halt;
use crate::number::Number;
use exact_field::Field;
use std::alloc::Global;
use whole_programs::{common_multiple, product, quotient};

/// How many bits a whole number has at most that is kept.
const LONGEST: u32 = 120;

/// A whole number, if it is short enough to be kept.
pub fn short(a: i128) -> Result<i128, Halt> {
    if a.unsigned_abs() < 1 << LONGEST {
        Ok(a)
    } else {
        Err(Halt::Long)
    }
}

/// Whole numbers over one denominator, which is positive.
#[derive(Drop)]
pub struct Shared {
    pub numbers: Vec<i128>,
    pub by: i128,
}

/// A multiple of a denominator that is one of a number's too.
pub fn unit_with<F: Field>(unit: i128, x: Number<F>) -> Result<i128, Halt> {
    if x.is_zero() {
        return Ok(unit);
    }
    short(common_multiple(unit, x.held()?.den())?)
}

/// The numerator of a number over a multiple of its denominator.
pub fn numerator_at<F: Field>(x: Number<F>, unit: i128) -> Result<i128, Halt> {
    if x.is_zero() {
        return Ok(0);
    }
    let x = x.held()?;
    short(product(x.num(), quotient(unit, x.den())?)?)
}

/// The numbers of a vector over their common denominator.
pub fn shared_of<F: Field>(alloc: Global, vector: &[Number<F>]) -> Result<Shared, Halt> {
    let mut by = 1;
    for x in vector {
        by = unit_with(by, *x)?;
    }
    let mut numbers = Vec::new(alloc);
    for x in vector {
        numbers.push(numerator_at(*x, by)?)?;
    }
    Ok(Shared { numbers, by })
}
