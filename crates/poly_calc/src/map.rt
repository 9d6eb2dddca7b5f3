//! The image of a feasible set under the objectives.
ghost use Rattle.std.specs.Prelude.{◌≡◌, ◌++◌, IfOk, OnOk, replicate};
ghost use Rattle.exact_field.specs.Rational.{zero_ℚ};
ghost use Rattle.vlp_problem.specs.declared.problem.Bound.TheVariants as bound;
ghost use Rattle.poly_calc.specs.Made.{value_row, map_cells, IsMap};
ghost use Rattle.vlp_problem.specs.FileSizes.{HasFileSizes};
ghost use Rattle.poly_calc.specs.Sets.{IsInMap, ProjectsTo};

use crate::cells::{push_bounds, push_moved, push_negatives};
use crate::made::{Bounds, problem_of};
use frac128::Frac;
use src_sink::{Items, NoMemory};
use std::alloc::Global;
use vlp_problem::{Bound, Cell, Problem};

/// Appends row number `row` of `z - P x`.
fn push_value_row(cells: &mut Items<Cell>, a: &Problem, row: u32) -> Result<(), NoMemory>
    requires limits { HasFileSizes a.now }
    ensures { OnOk result (cells.new ≡ cells.old ++ value_row a.now row) }
{
    cells.push(Cell {
        row,
        col: row,
        value: Frac::from(1),
    })?;
    push_negatives(cells, a.o.as_slice(), row, a.objs)
}

/// The matrix of the problem for an image.
fn map_matrix(alloc: Global, a: &Problem) -> Result<Items<Cell>, NoMemory>
    requires limits { HasFileSizes a.now }
    ensures { IfOk result (λ cells. cells ≡ map_cells a.now) }
{
    let mut cells = Items::new(alloc);
    for before in 0..a.objs {
        push_value_row(&mut cells, a, before + 1)?;
    }
    push_moved(&mut cells, a.a.as_slice(), a.objs, a.objs)?;
    Ok(cells)
}

/// The bounds of its rows and columns.
fn map_bounds(alloc: Global, a: &Problem) -> Result<Bounds, NoMemory>
    ensures rows { IfOk result (λ bounds.
        bounds.rows ≡ replicate a.now.objs (bound.Fixed zero_ℚ) ++ a.now.row_bounds) }
    ensures cols { IfOk result (λ bounds.
        bounds.cols ≡ replicate a.now.objs bound.Free ++ a.now.col_bounds) }
{
    let mut rows = Items::new(alloc);
    push_bounds(&mut rows, &Bound::Fixed(Frac::from(0)), a.objs)?;
    rows.append(a.row_bounds.as_slice())?;
    let mut cols = Items::new(alloc);
    push_bounds(&mut cols, &Bound::Free, a.objs)?;
    cols.append(a.col_bounds.as_slice())?;
    Ok(Bounds { rows, cols })
}

/// A problem whose feasible vectors begin with the objectives' values at those of `a`.
pub fn map_file(alloc: Global, a: &Problem) -> Result<Problem, NoMemory>
    requires limits { HasFileSizes a.now }
    ensures layout { IfOk result (IsMap a.now) }
    ensures set { IfOk result (λ made. ProjectsTo made a.now.objs (IsInMap a.now)) }
{
    let cells = map_matrix(alloc, a)?;
    let bounds = map_bounds(alloc, a)?;
    Ok(problem_of(alloc, a.objs + a.rows, a.objs + a.cols, cells, bounds))
}
