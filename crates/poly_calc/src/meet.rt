//! What is feasible for two problems.
ghost use Rattle.std.specs.Prelude.{◌≡◌, ◌++◌, IfOk};
ghost use Rattle.poly_calc.specs.Made.{meet_cells, IsMeet};
ghost use Rattle.vlp_problem.specs.FileSizes.{HasFileSizes};
ghost use Rattle.poly_calc.specs.Sets.{IsInBoth, ProjectsTo};

use crate::cells::{push_moved, push_units};
use crate::made::{Bounds, problem_of};
use src_sink::{Items, NoMemory};
use std::alloc::Global;
use vlp_problem::{Cell, Problem};

/// The matrix of the problem for both.
fn meet_matrix(alloc: Global, a: &Problem, b: &Problem) -> Result<Items<Cell>, NoMemory>
    requires first { HasFileSizes a.now }
    requires second { HasFileSizes b.now }
    ensures { IfOk result (λ cells. cells ≡ meet_cells a.now b.now) }
{
    let mut cells = Items::new(alloc);
    cells.append(a.a.as_slice())?;
    push_moved(&mut cells, b.a.as_slice(), a.rows, 0)?;
    push_units(&mut cells, a.rows + b.rows, b.cols)?;
    Ok(cells)
}

/// The bounds of its rows and columns.
fn meet_bounds(alloc: Global, a: &Problem, b: &Problem) -> Result<Bounds, NoMemory>
    ensures rows { IfOk result (λ bounds.
        bounds.rows ≡ a.now.row_bounds ++ (b.now.row_bounds ++ b.now.col_bounds)) }
    ensures cols { IfOk result (λ bounds. bounds.cols ≡ a.now.col_bounds) }
{
    let mut rows = Items::new(alloc);
    rows.append(a.row_bounds.as_slice())?;
    rows.append(b.row_bounds.as_slice())?;
    rows.append(b.col_bounds.as_slice())?;
    let mut cols = Items::new(alloc);
    cols.append(a.col_bounds.as_slice())?;
    Ok(Bounds { rows, cols })
}

/// A problem whose feasible vectors are those that are feasible for both.
pub fn meet_file(alloc: Global, a: &Problem, b: &Problem) -> Result<Problem, NoMemory>
    requires first { HasFileSizes a.now }
    requires second { HasFileSizes b.now }
    requires columns { a.now.cols ≡ b.now.cols }
    ensures layout { IfOk result (IsMeet a.now b.now) }
    ensures set { IfOk result (λ made. ProjectsTo made a.now.cols (IsInBoth a.now b.now)) }
{
    let cells = meet_matrix(alloc, a, b)?;
    let bounds = meet_bounds(alloc, a, b)?;
    Ok(problem_of(alloc, a.rows + b.rows + b.cols, a.cols, cells, bounds))
}
