//! Operations on fractions, many times over.

ghost use Rattle.std.specs.Prelude.{◌≡◌, cond, not};
ghost use Rattle.exact_field.specs.Field.{AnswersFraction};
ghost use Rattle.exact_field.specs.Order.{same_ℚ};
ghost use Rattle.exact_field.specs.Rational.{◌+ℚ◌, ◌*ℚ◌};
ghost use Rattle.frac128.specs.Held.{is_held};
ghost use Rattle.bench_calls.specs.Operands.{wide_value, count};

use exact_field::Field;
use frac128::Frac;
use std::cmp::Ordering;
use tier_frac::Tier;

/// A whole number of 128 bits, `high` times 2^64 and `low`.
#[repr(C)]
#[derive(Clone, Copy)]
pub struct Wide {
    pub high: i64,
    pub low: u64,
}

/// A number by its numerator and its denominator.
#[repr(C)]
#[derive(Clone, Copy)]
pub struct Number {
    pub num: Wide,
    pub den: Wide,
}

/// The two operands that a driver passes.
#[repr(C)]
#[derive(Clone, Copy)]
pub struct Operands {
    pub first: Number,
    pub second: Number,
}

fn wide_value(wide: Wide) -> i128
    ensures { result ≡ wide_value wide }
{
    i128::from(wide.high) * (1 << 64) + i128::from(wide.low)
}

/// The number of these parts, if it is held and its denominator is positive.
pub fn fraction<F: Field>(number: Number) -> Option<F>
    ensures { AnswersFraction F.value F.holds (wide_value number.num) (wide_value number.den)
        result }
{
    F::of(wide_value(number.num), wide_value(number.den))
}

fn sums<F: Field>(first: F, second: F, rounds: u32) -> u32
    ensures { result ≡ cond (F.holds (F.value first +ℚ F.value second)) rounds 0 }
{
    let mut a = first;
    let mut b = second;
    let mut counted = 0;
    for round in 0..rounds {
        if a.add(b).is_ok() {
            counted += 1;
        }
        a = a.neg();
        b = b.neg();
    }
    counted
}

/// Adds the fractions, and in each next round their negatives, and counts the sums that are held.
#[unsafe(no_mangle)]
pub extern "C" fn bench_sums(operands: &Operands, rounds: u32) -> u32
    ensures { result ≡ count (λ p q. is_held (p +ℚ q)) operands.now rounds }
{
    let first = fraction::<Frac>(operands.first);
    let second = fraction::<Frac>(operands.second);
    match (first, second) {
        (Some(a), Some(b)) => sums(a, b, rounds),
        _ => 0,
    }
}

/// The same over `Tier`, which holds numbers in two sizes.
#[unsafe(no_mangle)]
pub extern "C" fn bench_tier_sums(operands: &Operands, rounds: u32) -> u32
    ensures { result ≡ count (λ p q. is_held (p +ℚ q)) operands.now rounds }
{
    let first = fraction::<Tier>(operands.first);
    let second = fraction::<Tier>(operands.second);
    match (first, second) {
        (Some(a), Some(b)) => sums(a, b, rounds),
        _ => 0,
    }
}

fn products<F: Field>(first: F, second: F, rounds: u32) -> u32
    ensures { result ≡ cond (F.holds (F.value first *ℚ F.value second)) rounds 0 }
{
    let mut a = first;
    let mut b = second;
    let mut counted = 0;
    for round in 0..rounds {
        if a.mul(b).is_ok() {
            counted += 1;
        }
        a = a.neg();
        b = b.neg();
    }
    counted
}

/// Multiplies the fractions, and in each next round their negatives, and counts the products that
/// are held.
#[unsafe(no_mangle)]
pub extern "C" fn bench_products(operands: &Operands, rounds: u32) -> u32
    ensures { result ≡ count (λ p q. is_held (p *ℚ q)) operands.now rounds }
{
    let first = fraction::<Frac>(operands.first);
    let second = fraction::<Frac>(operands.second);
    match (first, second) {
        (Some(a), Some(b)) => products(a, b, rounds),
        _ => 0,
    }
}

/// The same over `Tier`.
#[unsafe(no_mangle)]
pub extern "C" fn bench_tier_products(operands: &Operands, rounds: u32) -> u32
    ensures { result ≡ count (λ p q. is_held (p *ℚ q)) operands.now rounds }
{
    let first = fraction::<Tier>(operands.first);
    let second = fraction::<Tier>(operands.second);
    match (first, second) {
        (Some(a), Some(b)) => products(a, b, rounds),
        _ => 0,
    }
}

fn comparisons<F: Field>(first: F, second: F, rounds: u32) -> u32
    ensures { result ≡ cond (not (same_ℚ (F.value first) (F.value second))) rounds 0 }
{
    let mut a = first;
    let mut b = second;
    let mut counted = 0;
    for round in 0..rounds {
        if a.cmp(&b) != Ordering::Equal {
            counted += 1;
        }
        a = a.neg();
        b = b.neg();
    }
    counted
}

/// Compares the fractions, and in each next round their negatives, and counts how often they
/// differ.
#[unsafe(no_mangle)]
pub extern "C" fn bench_comparisons(operands: &Operands, rounds: u32) -> u32
    ensures { result ≡ count (λ p q. not (same_ℚ p q)) operands.now rounds }
{
    let first = fraction::<Frac>(operands.first);
    let second = fraction::<Frac>(operands.second);
    match (first, second) {
        (Some(a), Some(b)) => comparisons(a, b, rounds),
        _ => 0,
    }
}

/// The same over `Tier`.
#[unsafe(no_mangle)]
pub extern "C" fn bench_tier_comparisons(operands: &Operands, rounds: u32) -> u32
    ensures { result ≡ count (λ p q. not (same_ℚ p q)) operands.now rounds }
{
    let first = fraction::<Tier>(operands.first);
    let second = fraction::<Tier>(operands.second);
    match (first, second) {
        (Some(a), Some(b)) => comparisons(a, b, rounds),
        _ => 0,
    }
}
