//! The rows of a problem's sides, each with its bound at a multiplier: `normal . x - bound k`.
ghost use Rattle.std.specs.Prelude.{◌≡◌, ◌+◌, ◌≤◌, ◌==◌, ◌++◌, ◌∷◌, [], map, length, if◌then◌else◌, IfOk, OnOk};
ghost use Rattle.exact_field.specs.Rational.{zero_ℚ, one_ℚ, neg_ℚ};
ghost use Rattle.vlp_problem.specs.Sides.{row_vector, unit, at_least, sides, sides_of, sides_from};
ghost use Rattle.poly_calc.specs.Made.{row_cells, side_row, side_rows};
ghost use Rattle.vlp_problem.specs.FileSizes.{HasFileSizes};

use exact_field::Field;
use frac128::{Frac, Vector, is_zero};
use src_sink::{Items, NoMemory};
use std::alloc::Global;
use vlp_problem::{Bound, Cell, Problem};

/// The columns of such rows: the first of `x`, and that of its multiplier.
#[derive(Clone, Copy, Debug)]
pub(crate) struct Columns {
    pub first: u32,
    pub multiplier: u32,
    ghost first_bounded: { first ≤ 10000 },
    ghost multiplier_bounded: { multiplier ≤ 10000 },
}

/// Appends the entries of a vector that are not 0, in one row, from a column on.
fn push_entries(
    cells: &mut Items<Cell>,
    row: u32,
    col: u32,
    vector: &[Frac],
) -> Result<(), NoMemory>
    requires few { length vector.now ≤ 1000 }
    requires col { col ≤ 10000 }
    ensures { OnOk result (cells.new ≡ cells.old ++ row_cells row col vector.now) }
{
    let mut at = col;
    for value in vector {
        if !is_zero(*value) {
            cells.push(Cell {
                row,
                col: at,
                value: *value,
            })?;
        }
        at += 1;
    }
    Ok(())
}

/// Appends the row of a side.
fn push_side(
    cells: &mut Items<Cell>,
    row: u32,
    columns: Columns,
    normal: &[Frac],
    bound: Frac,
) -> Result<(), NoMemory>
    requires { length normal.now ≤ 1000 }
    ensures { OnOk result (cells.new ≡ cells.old
        ++ side_row row columns.first columns.multiplier (at_least normal.now bound)) }
{
    push_entries(cells, row, columns.first, normal)?;
    push_entries(cells, row, columns.multiplier, &[bound.neg()])
}

/// The negative of a vector.
fn negative(alloc: Global, vector: &[Frac]) -> Result<Vector, NoMemory>
    ensures { IfOk result (λ v. v ≡ map neg_ℚ vector.now) }
{
    let mut turned = Items::new(alloc);
    for value in vector {
        turned.push(value.neg())?;
    }
    Ok(turned)
}

/// Appends the rows of a bound's sides, from row `row` on. The row after them.
fn push_bound(
    alloc: Global,
    cells: &mut Items<Cell>,
    row: u32,
    columns: Columns,
    normal: &[Frac],
    bound: &Bound,
) -> Result<u32, NoMemory>
    requires few { length normal.now ≤ 1000 }
    requires row { row ≤ 100000 }
    ensures cells { OnOk result (cells.new ≡ cells.old
        ++ side_rows row columns.first columns.multiplier (sides_of normal.now bound.now)) }
    ensures next { IfOk result (λ next. next ≡ row + length (sides_of normal.now bound.now)) }
    ensures few { IfOk result (λ next. next ≤ row + 2) }
{
    let (lower, upper) = match bound {
        Bound::Unsaid | Bound::Free => (None, None),
        Bound::Lower(low) => (Some(low), None),
        Bound::Upper(high) => (None, Some(high)),
        Bound::Double(low, high) => (Some(low), Some(high)),
        Bound::Fixed(value) => (Some(value), Some(value)),
    };
    let mut next = row;
    if let Some(&low) = lower {
        push_side(cells, next, columns, normal, low)?;
        next += 1;
    }
    if let Some(&high) = upper {
        let turned = negative(alloc, normal)?;
        push_side(cells, next, columns, turned.as_slice(), high.neg())?;
        next += 1;
    }
    Ok(next)
}

/// A row of a problem's matrix.
fn row_of(alloc: Global, problem: &Problem, row: u32) -> Result<Vector, NoMemory>
    ensures { IfOk result (λ v. v ≡ row_vector problem.now row) }
{
    let mut entries = Items::new(alloc);
    for before in 0..problem.cols {
        entries.push(problem.a_at(row, before + 1))?;
    }
    Ok(entries)
}

/// The entry of the unit vector with 1 at place `at`.
fn unit_entry(place: u32, at: u32) -> Frac
    ensures { result ≡ (if place == at then one_ℚ else zero_ℚ) }
{
    if place == at {
        Frac::from(1)
    } else {
        Frac::from(0)
    }
}

/// The unit vector with 1 at place `at`.
fn unit_of(alloc: Global, count: u32, at: u32) -> Result<Vector, NoMemory>
    requires { count ≤ 1000 }
    ensures { IfOk result (λ v. v ≡ unit count at) }
{
    let mut entries = Items::new(alloc);
    for before in 0..count {
        entries.push(unit_entry(before + 1, at))?;
    }
    Ok(entries)
}

/// Appends the rows of the sides that a problem's row bounds stand for.
fn push_row_sides(
    alloc: Global,
    cells: &mut Items<Cell>,
    from: u32,
    columns: Columns,
    problem: &Problem,
) -> Result<u32, NoMemory>
    requires limits { HasFileSizes problem.now }
    requires from { from ≤ 50000 }
    ensures cells { OnOk result (cells.new ≡ cells.old
        ++ side_rows from columns.first columns.multiplier
        (sides_from (row_vector problem.now) 1 problem.now.row_bounds)) }
    ensures next { IfOk result (λ next. next
        ≡ from + length (sides_from (row_vector problem.now) 1 problem.now.row_bounds)) }
    ensures few { IfOk result (λ next. next ≤ from + 2000) }
{
    let bounds = problem.row_bounds.as_slice();
    let mut next = from;
    for (i, bound) in bounds.iter().enumerate() {
        let normal = row_of(alloc, problem, i as u32 + 1)?;
        next = push_bound(alloc, cells, next, columns, normal.as_slice(), bound)?;
    }
    Ok(next)
}

/// Appends the rows of the sides that a problem's column bounds stand for.
fn push_col_sides(
    alloc: Global,
    cells: &mut Items<Cell>,
    from: u32,
    columns: Columns,
    problem: &Problem,
) -> Result<u32, NoMemory>
    requires limits { HasFileSizes problem.now }
    requires from { from ≤ 50000 }
    ensures cells { OnOk result (cells.new ≡ cells.old
        ++ side_rows from columns.first columns.multiplier
        (sides_from (unit problem.now.cols) 1 problem.now.col_bounds)) }
    ensures next { IfOk result (λ next. next
        ≡ from + length (sides_from (unit problem.now.cols) 1 problem.now.col_bounds)) }
    ensures few { IfOk result (λ next. next ≤ from + 2000) }
{
    let bounds = problem.col_bounds.as_slice();
    let mut next = from;
    for (i, bound) in bounds.iter().enumerate() {
        let normal = unit_of(alloc, problem.cols, i as u32 + 1)?;
        next = push_bound(alloc, cells, next, columns, normal.as_slice(), bound)?;
    }
    Ok(next)
}

/// Appends the rows of a problem's sides. The row after them.
pub(crate) fn push_sides(
    alloc: Global,
    cells: &mut Items<Cell>,
    from: u32,
    columns: Columns,
    problem: &Problem,
) -> Result<u32, NoMemory>
    requires limits { HasFileSizes problem.now }
    requires from { from ≤ 10000 }
    ensures cells { OnOk result (cells.new ≡ cells.old
        ++ side_rows from columns.first columns.multiplier (sides problem.now)) }
    ensures next { IfOk result (λ next. next ≡ from + length (sides problem.now)) }
    ensures few { IfOk result (λ next. next ≤ from + 4000) }
{
    let middle = push_row_sides(alloc, cells, from, columns, problem)?;
    let next = push_col_sides(alloc, cells, middle, columns, problem)?;
    Ok(next)
}
