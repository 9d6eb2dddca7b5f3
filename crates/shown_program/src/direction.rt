//! Directions along which the equations stay solved and the cost rises.
ghost use Rattle.std.specs.Prelude.{◌≡◌, ◌+◌, ◌≤◌, length, map, All, IsTrue, IfOk};
ghost use Rattle.exact_field.specs.Rational.{zero_ℚ, ◌<ℚ◌};
ghost use Rattle.exact_field.specs.Vector.{dot as product, entry};
ghost use Rattle.polyhedra.specs.Vectors.{zeros as zero_vector};
ghost use Rattle.program_columns.specs.Program.{AreInRange};
ghost use Rattle.shown_program.specs.Tests.{IsAlong, SumTo};

use crate::lists::with_first;
use crate::range::is_number;
use crate::solution::{are_allowed, sum_to};
use exact_field::{Field, is_positive};
use lin_rows::dot;
use lp_form::zeros;
use program_columns::Columns;
use src_sink::{Items, NoMemory};
use std::alloc::Global;

/// The costs of columns.
fn costs_at<F: Field>(
    alloc: Global,
    program: &Columns<'_, F>,
    columns: &[u32],
) -> Result<Items<F>, NoMemory>
    requires { All (λ c. 1 ≤ c) columns.now }
    ensures { IfOk result
        (λ costs. map F.value costs ≡ map (entry (map F.value program.now.cost)) columns.now) }
{
    let mut costs = Items::new(alloc);
    for column in columns {
        costs.push(program.cost_at(*column as usize))?;
    }
    Ok(costs)
}

/// Whether the product of two lists is above 0: not where a number is not held.
fn has_positive_product<F: Field>(one: &[F], other: &[F]) -> bool
    requires { length one.now ≡ length other.now }
    ensures { IsTrue result → zero_ℚ <ℚ product (map F.value one.now) (map F.value other.now) }
{
    match dot(one, other) {
        Err(_) => false,
        Ok(sum) => is_positive(sum),
    }
}

/// Whether the cost rises with these changes of columns.
fn does_rise<F: Field>(
    alloc: Global,
    program: &Columns<'_, F>,
    columns: &[u32],
    changes: &[F],
) -> Result<bool, NoMemory>
    requires low { All (λ c. 1 ≤ c) columns.now }
    requires each { length changes.now ≡ length columns.now }
    ensures { IfOk result (λ yes. IsTrue yes → zero_ℚ <ℚ product (map F.value changes.now)
        (map (entry (map F.value program.now.cost)) columns.now)) }
{
    let costs = costs_at(alloc, program, columns)?;
    Ok(has_positive_product(changes, costs.as_slice()))
}

/// Whether the equations stay solved with these changes of columns.
fn is_level<F: Field>(
    alloc: Global,
    program: &Columns<'_, F>,
    columns: &[u32],
    changes: &[F],
) -> Result<bool, NoMemory>
    requires low { All (λ c. 1 ≤ c) columns.now }
    requires high { All (λ c. c ≤ length program.now.cost + length program.now.right) columns.now }
    requires each { length changes.now ≡ length columns.now }
    ensures { IfOk result
        (λ yes. IsTrue yes → SumTo F.value program.now columns.now (map F.value changes.now)
        (zero_vector (length program.now.right))) }
{
    let still = zeros(alloc, program.right.len() as u32)?;
    sum_to(alloc, program, columns, changes, still.as_slice())
}

/// Whether an unknown can be raised without end, so that each of the columns of a basis becomes
/// greater by its change or stays as it is: the equations stay solved, and the cost rises. The cost
/// of the test is that of the entries of the columns that are not 0.
pub(crate) fn is_along<F: Field>(
    alloc: Global,
    program: &Columns<'_, F>,
    columns: &[u32],
    col: u32,
    changes: &[F],
) -> Result<bool, NoMemory>
    requires range { AreInRange program.now columns.now }
    requires each { length changes.now ≡ length columns.now }
    ensures { IfOk result (λ yes. IsTrue yes
        → IsAlong F.value program.now columns.now col (map F.value changes.now)) }
{
    if !is_number(col as usize, program.cost.len()) {
        return Ok(false);
    }
    if !are_allowed(columns, changes, program.cost.len()) {
        return Ok(false);
    }
    let raised = with_first(alloc, col, columns)?;
    let all = with_first(alloc, F::one(), changes)?;
    if !does_rise(alloc, program, raised.as_slice(), all.as_slice())? {
        return Ok(false);
    }
    is_level(alloc, program, raised.as_slice(), all.as_slice())
}
