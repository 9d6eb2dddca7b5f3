//! Calculations that count their steps, and stop at the first one whose exact result is not held.
ghost use Rattle.std.specs.Prelude.{◌≡◌, ◌≢◌, ◌*◌, ◌<◌, ◌≤◌, ◌+◌, ◌++◌, ◌||◌, List, IfOk, MatchResult, length};
ghost use Rattle.exact_field.specs.Rational.{zero_ℚ, inverse_ℚ, ◌+ℚ◌, ◌*ℚ◌};
ghost use Rattle.exact_field.specs.Vector.{dot};
ghost use Rattle.polyhedra.specs.Vectors.{plus, scaled};
ghost use Rattle.polyhedra.specs.DoubleDescription.{is_zero};
ghost use Rattle.double_descr.specs.Steps.{IsSoFar, Runs, Step, StopsAt, combination_steps, multiple_steps, product_steps, quotient_steps, term_steps, values};

use exact_field::over::dot_over;
use exact_field::{Field, Left, is_zero};
use std::alloc::{AllocError, AllocFailed, Global};

/// Why a calculation was given up.
#[derive(Debug, Drop)]
pub enum Stop<F: Drop> {
    /// A step whose result is not held, by its number from 1, and its operation with the operands.
    Step(u64, Left<F>),
    /// Want of memory.
    NoMemory,
}

/// Whether one of two numbers is 0.
fn is_no_term<F: Field>(x: F, y: F) -> bool
    ensures { result ≡ (is_zero (F.value x) || is_zero (F.value y)) }
{
    is_zero(x) || is_zero(y)
}

/// A total and a product, with the number of steps before.
fn add_product<F: Field>(x: F, y: F, total: F, done: u64) -> Result<F, Stop<F>>
    requires { done + 2 < 18446744073709551616 }
    ensures runs { (steps left : List Step)
        → IsSoFar F.holds steps (multiple_steps (F.value total) (F.value x) (F.value y) ++ left)
        done
        → MatchResult result (λ r. IsSoFar F.holds steps left (done + 2))
        (λ stop. StopsAt F.value F.holds steps stop) }
    ensures value { IfOk result (λ r. F.value r ≡ F.value total +ℚ F.value x *ℚ F.value y) }
{
    match x.mul(y) {
        Err(left) => Err(Stop::Step(done + 1, left)),
        Ok(term) => match total.add(term) {
            Err(left) => Err(Stop::Step(done + 2, left)),
            Ok(sum) => Ok(sum),
        },
    }
}

/// One more term of a product: the total and the number of steps with it.
fn add_term<F: Field>(x: F, y: F, total: F, done: u64) -> Result<(F, u64), Stop<F>>
    requires { done + 2 < 18446744073709551616 }
    ensures runs { (steps left : List Step)
        → IsSoFar F.holds steps (term_steps (F.value total) (F.value x) (F.value y) ++ left) done
        → MatchResult result (λ r. IsSoFar F.holds steps left r.1)
        (λ stop. StopsAt F.value F.holds steps stop) }
    ensures value { IfOk result (λ r. F.value r.0 ≡ F.value total +ℚ F.value x *ℚ F.value y) }
    ensures done { IfOk result (λ r. r.1 ≤ done + 2) }
{
    if is_no_term(x, y) {
        return Ok((total, done));
    }
    match add_product(x, y, total, done) {
        Err(stop) => Err(stop),
        Ok(sum) => Ok((sum, done + 2)),
    }
}

/// The product of two vectors of one width, step by step: where the short way has no answer. The
/// first step that is not held is told.
fn product_by_steps<F: Field>(row: &[F], vector: &[F]) -> Result<F, Stop<F>>
    requires same { length row.now ≡ length vector.now }
    requires narrow { length row.now < 4294967296 }
    ensures { Runs F.value F.holds
        (product_steps zero_ℚ (values F.value row.now) (values F.value vector.now)) result
        (λ r. F.value r ≡ dot (values F.value row.now) (values F.value vector.now)) }
{
    let mut total = F::zero();
    let mut done = 0;
    for i in 0..row.len() {
        (total, done) = add_term(row[i], vector[i], total, done)?;
    }
    Ok(total)
}

/// The product of two vectors of one width.
pub fn product<F: Field>(row: &[F], vector: &[F]) -> Result<F, Stop<F>>
    requires same { length row.now ≡ length vector.now }
    requires narrow { length row.now < 4294967296 }
    ensures { Runs F.value F.holds
        (product_steps zero_ℚ (values F.value row.now) (values F.value vector.now)) result
        (λ r. F.value r ≡ dot (values F.value row.now) (values F.value vector.now)) }
{
    if let Some(value) = F::short_dot(row, vector) {
        return Ok(value);
    }
    match dot_over(row, vector) {
        Some(value) => Ok(value),
        None => product_by_steps(row, vector),
    }
}

/// The entries of one vector plus a factor times those of another, with the number of steps before.
pub fn combination<F: Field>(
    alloc: Global,
    factor: F,
    vector: &[F],
    other: &[F],
    done: u64,
) -> Result<Vec<F>, Stop<F>>
    requires same { length vector.now ≡ length other.now }
    requires narrow { length vector.now < 4294967296 }
    requires early { done < 4294967296 }
    ensures runs { (steps left : List Step)
        → IsSoFar F.holds steps (combination_steps (F.value factor) (values F.value vector.now)
        (values F.value other.now) ++ left) done
        → MatchResult result (λ z. IsSoFar F.holds steps left (done + 2 * length vector.now))
        (λ stop. StopsAt F.value F.holds steps stop) }
    ensures value { IfOk result (λ z. values F.value z.items
        ≡ plus (values F.value vector.now) (scaled (F.value factor) (values F.value other.now))) }
{
    let mut out = Vec::with_capacity(alloc, vector.len())?;
    for i in 0..vector.len() {
        out.push(add_product(factor, other[i], vector[i], done + 2 * i as u64)?)?;
    }
    Ok(out)
}

/// The entries of a vector divided by a number that is not 0, with the number of steps before.
pub fn quotients<F: Field>(alloc: Global, vector: &[F], by: F, done: u64) -> Result<Vec<F>, Stop<F>>
    requires by { F.value by ≢ zero_ℚ }
    requires narrow { length vector.now < 4294967296 }
    requires early { done < 17179869184 }
    ensures runs { (steps left : List Step)
        → IsSoFar F.holds steps (quotient_steps (F.value by) (values F.value vector.now) ++ left)
        done
        → MatchResult result (λ z. IsSoFar F.holds steps left (done + length vector.now))
        (λ stop. StopsAt F.value F.holds steps stop) }
    ensures value { IfOk result (λ z. values F.value z.items
        ≡ scaled (inverse_ℚ (F.value by)) (values F.value vector.now)) }
{
    let mut out = Vec::with_capacity(alloc, vector.len())?;
    for i in 0..vector.len() {
        match vector[i].div(by) {
            Err(left) => return Err(Stop::Step(done + i as u64 + 1, left)),
            Ok(quotient) => out.push(quotient)?,
        }
    }
    Ok(out)
}

impl<T: Drop, F: Drop> From<AllocFailed<T>> for Stop<F> {
    ghost use Rattle.std.specs.Prelude.{◌≡◌};
    ghost use Rattle.double_descr.specs.declared.steps.Stop.TheVariants.{NoMemory};

    ghost from_gives = { λ _ e. e ≡ NoMemory };

    fn from(_e: AllocFailed<T>) -> Stop<F> {
        Stop::NoMemory
    }
}

impl<F: Drop> From<AllocError> for Stop<F> {
    ghost use Rattle.std.specs.Prelude.{◌≡◌};
    ghost use Rattle.double_descr.specs.declared.steps.Stop.TheVariants.{NoMemory};

    ghost from_gives = { λ _ e. e ≡ NoMemory };

    fn from(_e: AllocError) -> Stop<F> {
        Stop::NoMemory
    }
}
