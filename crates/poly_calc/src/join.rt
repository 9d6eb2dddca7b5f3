//! The closed convex hull of two feasible sets that are not empty.
ghost use Rattle.std.specs.Prelude.{◌≡◌, ◌+◌, ◌≤◌, ◌++◌, length, IfOk, OnOk};
ghost use Rattle.vlp_problem.specs.Sides.{sides};
ghost use Rattle.poly_calc.specs.Made.{weights_row, join_cells, join_row_bounds, join_col_bounds, IsJoin};
ghost use Rattle.vlp_problem.specs.FileSizes.{HasFileSizes};
ghost use Rattle.poly_calc.specs.Sets.{HasFeasible, IsInJoin, ProjectsTo};

use crate::cells::push_bounds;
use crate::made::{Bounds, problem_of};
use crate::sides::{Columns, push_sides};
use crate::sum::push_sum_rows;
use frac128::Frac;
use src_sink::{Items, NoMemory};
use std::alloc::Global;
use vlp_problem::{Bound, Cell, Problem};

/// A matrix, and how many rows each part's sides take of it.
#[derive(Drop)]
struct Joined {
    cells: Items<Cell>,
    first_sides: u32,
    second_sides: u32,
}

/// Appends the row of `k + l`, where z, x and y have so many entries each.
fn push_weights(cells: &mut Items<Cell>, count: u32) -> Result<(), NoMemory>
    requires { count ≤ 1000 }
    ensures { OnOk result (cells.new ≡ cells.old ++ weights_row count) }
{
    let one = Frac::from(1);
    let row = count + 1;
    cells.push(Cell {
        row,
        col: count + count + count + 1,
        value: one,
    })?;
    cells.push(Cell {
        row,
        col: count + count + count + 2,
        value: one,
    })
}

/// The matrix of the problem for a join.
fn join_matrix(alloc: Global, a: &Problem, b: &Problem) -> Result<Joined, NoMemory>
    requires first { HasFileSizes a.now }
    requires second { HasFileSizes b.now }
    ensures cells { IfOk result (λ joined. joined.cells ≡ join_cells a.now b.now) }
    ensures first { IfOk result (λ joined. joined.first_sides ≡ length (sides a.now)) }
    ensures second { IfOk result (λ joined. joined.second_sides ≡ length (sides b.now)) }
    ensures few_first { IfOk result (λ joined. joined.first_sides ≤ 4000) }
    ensures few_second { IfOk result (λ joined. joined.second_sides ≤ 4000) }
{
    let count = a.cols;
    let first = Columns {
        first: count + 1,
        multiplier: count + count + count + 1,
    };
    let second = Columns {
        first: count + count + 1,
        multiplier: count + count + count + 2,
    };
    let mut cells = Items::new(alloc);
    push_sum_rows(&mut cells, count)?;
    push_weights(&mut cells, count)?;
    let middle = push_sides(alloc, &mut cells, count + 2, first, a)?;
    let end = push_sides(alloc, &mut cells, middle, second, b)?;
    Ok(Joined {
        cells,
        first_sides: middle - (count + 2),
        second_sides: end - middle,
    })
}

/// The bounds of a problem for a join, whose parts have so many sides.
fn join_bounds(alloc: Global, count: u32, first: u32, second: u32) -> Result<Bounds, NoMemory>
    requires { count ≤ 1000 }
    ensures rows { IfOk result (λ bounds. bounds.rows ≡ join_row_bounds count first second) }
    ensures cols { IfOk result (λ bounds. bounds.cols ≡ join_col_bounds count) }
{
    let zero = Frac::from(0);
    let lower = Bound::Lower(zero);
    let mut rows = Items::new(alloc);
    push_bounds(&mut rows, &Bound::Fixed(zero), count)?;
    rows.push(Bound::Fixed(Frac::from(1)))?;
    push_bounds(&mut rows, &lower, first)?;
    push_bounds(&mut rows, &lower, second)?;
    let mut cols = Items::new(alloc);
    push_bounds(&mut cols, &Bound::Free, count + count + count)?;
    push_bounds(&mut cols, &lower, 2)?;
    Ok(Bounds { rows, cols })
}

/// A problem whose feasible vectors begin with those of the closed convex hull of both sets, that
/// is with all means of a feasible vector of each, to which directions of each are added.
pub fn join_file(alloc: Global, a: &Problem, b: &Problem) -> Result<Problem, NoMemory>
    requires first { HasFileSizes a.now }
    requires second { HasFileSizes b.now }
    requires columns { a.now.cols ≡ b.now.cols }
    requires some_first { HasFeasible a.now }
    requires some_second { HasFeasible b.now }
    ensures layout { IfOk result (IsJoin a.now b.now) }
    ensures set { IfOk result (λ made. ProjectsTo made a.now.cols (IsInJoin a.now b.now)) }
{
    let joined = join_matrix(alloc, a, b)?;
    let (first, second) = (joined.first_sides, joined.second_sides);
    let count = a.cols;
    let bounds = join_bounds(alloc, count, first, second)?;
    let rows = count + 1 + first + second;
    let cols = count + count + count + 2;
    Ok(problem_of(alloc, rows, cols, joined.cells, bounds))
}
