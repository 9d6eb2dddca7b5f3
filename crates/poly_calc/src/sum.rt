//! Sums of two feasible sets.
ghost use Rattle.std.specs.Prelude.{◌≡◌, ◌≤◌, ◌++◌, IfOk, OnOk, replicate};
ghost use Rattle.std.specs.List.{flat_map};
ghost use Rattle.exact_field.specs.Rational.{zero_ℚ};
ghost use Rattle.vlp_problem.specs.Sides.{numbers_from};
ghost use Rattle.vlp_problem.specs.declared.problem.Bound.TheVariants as bound;
ghost use Rattle.poly_calc.specs.Made.{sum_row, sum_cells, IsSum};
ghost use Rattle.vlp_problem.specs.FileSizes.{HasFileSizes};
ghost use Rattle.poly_calc.specs.Sets.{IsInSum, ProjectsTo};

use crate::cells::{push_bounds, push_moved};
use crate::made::{Bounds, problem_of};
use exact_field::Field;
use frac128::Frac;
use src_sink::{Items, NoMemory};
use std::alloc::Global;
use vlp_problem::{Bound, Cell, Problem};

/// Appends row number `row` of `z - x - y`, where each has so many entries.
fn push_sum_row(cells: &mut Items<Cell>, count: u32, row: u32) -> Result<(), NoMemory>
    requires count { count ≤ 1000 }
    requires row { row ≤ 1000 }
    ensures { OnOk result (cells.new ≡ cells.old ++ sum_row count row) }
{
    let one = Frac::from(1);
    let minus_one = one.neg();
    cells.push(Cell {
        row,
        col: row,
        value: one,
    })?;
    cells.push(Cell {
        row,
        col: count + row,
        value: minus_one,
    })?;
    cells.push(Cell {
        row,
        col: count + count + row,
        value: minus_one,
    })
}

/// Appends all rows of `z - x - y`.
pub(crate) fn push_sum_rows(cells: &mut Items<Cell>, count: u32) -> Result<(), NoMemory>
    requires { count ≤ 1000 }
    ensures { OnOk result (cells.new ≡ cells.old
        ++ flat_map (sum_row count) (numbers_from 1 count)) }
{
    for before in 0..count {
        push_sum_row(cells, count, before + 1)?;
    }
    Ok(())
}

/// The matrix of the problem for a sum.
fn sum_matrix(alloc: Global, a: &Problem, b: &Problem) -> Result<Items<Cell>, NoMemory>
    requires first { HasFileSizes a.now }
    ensures { IfOk result (λ cells. cells ≡ sum_cells a.now b.now) }
{
    let mut cells = Items::new(alloc);
    push_sum_rows(&mut cells, a.cols)?;
    push_moved(&mut cells, a.a.as_slice(), a.cols, a.cols)?;
    push_moved(&mut cells, b.a.as_slice(), a.cols + a.rows, a.cols + a.cols)?;
    Ok(cells)
}

/// The bounds of its rows and columns.
fn sum_bounds(alloc: Global, a: &Problem, b: &Problem) -> Result<Bounds, NoMemory>
    ensures rows { IfOk result (λ bounds. bounds.rows
        ≡ replicate a.now.cols (bound.Fixed zero_ℚ) ++ (a.now.row_bounds ++ b.now.row_bounds)) }
    ensures cols { IfOk result (λ bounds. bounds.cols
        ≡ replicate a.now.cols bound.Free ++ (a.now.col_bounds ++ b.now.col_bounds)) }
{
    let mut rows = Items::new(alloc);
    push_bounds(&mut rows, &Bound::Fixed(Frac::from(0)), a.cols)?;
    rows.append(a.row_bounds.as_slice())?;
    rows.append(b.row_bounds.as_slice())?;
    let mut cols = Items::new(alloc);
    push_bounds(&mut cols, &Bound::Free, a.cols)?;
    cols.append(a.col_bounds.as_slice())?;
    cols.append(b.col_bounds.as_slice())?;
    Ok(Bounds { rows, cols })
}

/// A problem whose feasible vectors begin with the sums of a feasible vector of each.
pub fn sum_file(alloc: Global, a: &Problem, b: &Problem) -> Result<Problem, NoMemory>
    requires first { HasFileSizes a.now }
    requires second { HasFileSizes b.now }
    requires columns { a.now.cols ≡ b.now.cols }
    ensures layout { IfOk result (IsSum a.now b.now) }
    ensures set { IfOk result (λ made. ProjectsTo made a.now.cols (IsInSum a.now b.now)) }
{
    let cells = sum_matrix(alloc, a, b)?;
    let bounds = sum_bounds(alloc, a, b)?;
    let cols = a.cols;
    Ok(problem_of(
        alloc,
        cols + a.rows + b.rows,
        cols + cols + cols,
        cells,
        bounds,
    ))
}
