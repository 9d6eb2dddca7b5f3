//! Multipliers that show that there is no solution.
ghost use Rattle.std.specs.Prelude.{◌≡◌, ◌+◌, ◌≤◌, ◌<◌, length, map, All, IsFalse, IsTrue};
ghost use Rattle.exact_field.specs.Rational.{zero_ℚ, one_ℚ, neg_ℚ, ◌≤ℚ◌, ◌<ℚ◌};
ghost use Rattle.exact_field.specs.Vector.{dot as product_of};
ghost use Rattle.program_columns.specs.Program.{AreInRange, column_in};
ghost use Rattle.shown_program.specs.Tests.{AreNotBelow, IsFirstPrice};

use crate::prices::is_same;
use crate::sparse::product;
use exact_field::{Field, is_negative, is_zero};
use lin_rows::dot;
use program_columns::Columns;

/// Whether a price is the negative of the first phase's cost of an unknown, or of an artificial
/// column.
fn is_first_price<F: Field>(price: F, is_unknown: bool) -> bool
    ensures unknown { IsTrue result → IsTrue is_unknown → F.value price ≡ zero_ℚ }
    ensures artificial { IsTrue result → IsFalse is_unknown → F.value price ≡ neg_ℚ one_ℚ }
{
    if is_unknown {
        is_zero(price)
    } else {
        is_same(price, F::one().neg())
    }
}

/// Whether multipliers make up for the first phase's cost of a column: not where a number is not
/// held.
fn is_balanced<F: Field>(program: &Columns<'_, F>, y: &[F], k: usize) -> bool
    requires low { 1 ≤ k }
    requires high { k ≤ length program.now.cost + length program.now.right }
    requires each { length y.now ≡ length program.now.right }
    ensures { IsTrue result → IsFirstPrice F.value program.now (map F.value y.now) k }
{
    let Some(price) = product(program.column(k), y) else {
        return false;
    };
    is_first_price(price, k <= program.cost.len())
}

/// Whether they make up for that of each column of a basis.
pub(crate) fn are_balanced<F: Field>(program: &Columns<'_, F>, columns: &[u32], y: &[F]) -> bool
    requires range { AreInRange program.now columns.now }
    requires each { length y.now ≡ length program.now.right }
    ensures { IsTrue result
        → All (IsFirstPrice F.value program.now (map F.value y.now)) columns.now }
{
    for column in columns {
        if !is_balanced(program, y, *column as usize) {
            return false;
        }
    }
    true
}

/// Whether multipliers have no product below 0 with the column of an unknown: not where a number is
/// not held.
fn is_not_below<F: Field>(program: &Columns<'_, F>, y: &[F], k: usize) -> bool
    requires low { 1 ≤ k }
    requires high { k ≤ length program.now.cost + length program.now.right }
    requires each { length y.now ≡ length program.now.right }
    ensures { IsTrue result
        → zero_ℚ ≤ℚ product_of (map F.value y.now) (column_in F.value program.now k) }
{
    let Some(price) = product(program.column(k), y) else {
        return false;
    };
    !is_negative(price)
}

/// The same of all unknowns. The cost is that of their entries that are not 0.
pub(crate) fn are_not_below<F: Field>(program: &Columns<'_, F>, y: &[F]) -> bool
    requires { length y.now ≡ length program.now.right }
    ensures { IsTrue result → AreNotBelow F.value program.now (map F.value y.now) }
{
    for k in 0..program.cost.len() {
        if !is_not_below(program, y, k + 1) {
            return false;
        }
    }
    true
}

/// Whether the product of two lists is below 0: not where a number is not held.
pub(crate) fn has_negative_product<F: Field>(one: &[F], other: &[F]) -> bool
    requires { length one.now ≡ length other.now }
    ensures { IsTrue result → product_of (map F.value one.now) (map F.value other.now) <ℚ zero_ℚ }
{
    match dot(one, other) {
        Err(_) => false,
        Ok(sum) => is_negative(sum),
    }
}
