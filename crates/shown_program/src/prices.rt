//! The multipliers of a basis as prices.
ghost use Rattle.std.specs.Prelude.{◌≡◌, ◌+◌, ◌≤◌, ◌<◌, ℕ, length, map, ◌↔◌, All, IsFalse, IsTrue, IsSome, IfOk, IfSome};
ghost use Rattle.exact_field.specs.Rational.{◌<ℚ◌, ◌≤ℚ◌};
ghost use Rattle.exact_field.specs.Vector.{dot, entry};
ghost use Rattle.shown_program.specs.Marks.{mark_at};
ghost use Rattle.program_columns.specs.Program.{AreInRange, column_in};
ghost use Rattle.shown_program.specs.Tests.{ArePriced, Bound, IsTight};

use crate::sparse::product;
use exact_field::Field;
use program_columns::Columns;
use src_sink::NoMemory;
use std::alloc::Global;

/// Whether two numbers are one.
pub(crate) fn is_same<F: Field>(a: F, b: F) -> bool
    ensures { IsTrue result → F.value a ≡ F.value b }
{
    a == b
}

/// Whether a number is below another.
fn is_below<F: Field>(a: F, b: F) -> bool
    ensures { IsTrue result ↔ (F.value a <ℚ F.value b) }
{
    a < b
}

/// Whether a price is below a cost, where it is to make up for it.
fn is_short<F: Field>(price: F, cost: F, owed: bool) -> bool
    ensures { IsFalse result → IsTrue owed → F.value cost ≤ℚ F.value price }
{
    if owed { is_below(price, cost) } else { false }
}

/// Whether the multipliers make up for the cost of a column exactly: none where the column is that
/// of an unknown whose cost is greater, or where a number is not held.
fn is_tight<F: Field>(program: &Columns<'_, F>, y: &[F], k: usize) -> Option<bool>
    requires low { 1 ≤ k }
    requires high { k ≤ length program.now.cost + length program.now.right }
    requires each { length y.now ≡ length program.now.right }
    ensures bound { IsSome result → k ≤ length program.now.cost
        → entry (map F.value program.now.cost) k
        ≤ℚ dot (map F.value y.now) (column_in F.value program.now k) }
    ensures tight { IfSome result
        (λ yes. IsTrue yes → IsTight F.value program.now (map F.value y.now) k) }
{
    let price = product(program.column(k), y)?;
    let cost = program.cost_at(k);
    if is_short(price, cost, k <= program.cost.len()) {
        return None;
    }
    Some(is_same(price, cost))
}

/// For each column whether the multipliers make up for its cost exactly: none where they fall short
/// at an unknown, or a number is not held. The cost is that of the entries that are not 0.
fn tight_columns<F: Field>(
    alloc: Global,
    program: &Columns<'_, F>,
    y: &[F],
) -> Result<Option<Vec<bool>>, NoMemory>
    requires { length y.now ≡ length program.now.right }
    ensures { IfOk result (λ o. IfSome o (λ tight. ArePriced F.value program.now (map F.value y.now)
        (length program.now.cost + length program.now.right) tight.items)) }
{
    let mut tight = Vec::new(alloc);
    for k in 0..program.cost.len() + program.right.len() {
        match is_tight(program, y, k + 1) {
            None => return Ok(None),
            Some(yes) => tight.push(yes)?,
        }
    }
    Ok(Some(tight))
}

/// Whether all columns of a basis are tight.
fn are_tight(tight: &[bool], columns: &[u32]) -> bool
    requires low { All (λ c. 1 ≤ c) columns.now }
    requires high { All (λ c. c ≤ length tight.now) columns.now }
    ensures { IsTrue result → All (λ c. IsTrue (mark_at tight.now c)) columns.now }
{
    for column in columns {
        if !tight[*column as usize - 1] {
            return false;
        }
    }
    true
}

/// Whether the multipliers make up for the cost of each unknown, and exactly at the columns of a
/// basis, of which the artificial ones cost nothing: not where a number is not held.
pub(crate) fn are_prices<F: Field>(
    alloc: Global,
    program: &Columns<'_, F>,
    columns: &[u32],
    y: &[F],
) -> Result<bool, NoMemory>
    requires range { AreInRange program.now columns.now }
    requires each { length y.now ≡ length program.now.right }
    ensures bound { IfOk result
        (λ yes. IsTrue yes → Bound F.value program.now (map F.value y.now)) }
    ensures tight { IfOk result
        (λ yes. IsTrue yes → All (IsTight F.value program.now (map F.value y.now)) columns.now) }
{
    let Some(tight) = tight_columns(alloc, program, y)? else {
        return Ok(false);
    };
    Ok(are_tight(&tight, columns))
}
