//! The sides and the objectives of a problem by their entries that are not 0, once by rows and once
//! by columns.
ghost use Rattle.std.specs.Prelude.{◌≡◌, ◌≤◌, map, length, All, IfOk, IsTrue};
ghost use Rattle.vlp_matrices.specs.Matrices.{cells_from, spots_in};
ghost use Rattle.vlp_problem.specs.Cells.{are_cells};
ghost use Rattle.upper_image.specs.Spots.{IsVector, dense};
ghost use Rattle.upper_image.specs.UpperImage.{normals};
ghost use Rattle.vlp_problem.specs.Sides.{numbers_from, side_bounds};
ghost use Rattle.vlp_problem.specs.declared.problem.Dir.TheVariants as dir;
ghost use Rattle.vlp_problem.specs.declared.problem.Axis.TheVariants as axis;

use crate::matrix::{Sides, cells_of, spots_by, units};
use frac128::{Sparse, Vector};
use src_sink::{Items, NoMemory};
use std::alloc::Global;
use vlp_problem::{Axis, Cell, Dir, Problem};

/// The vectors of a matrix.
#[derive(Debug, Drop)]
pub struct Matrix {
    pub rows: Items<Sparse>,
    pub columns: Items<Sparse>,
}

/// A problem's inequalities `G x >= g`, one for each finite bound, and its objectives in working
/// coordinates.
#[derive(Debug, Drop)]
pub struct Matrices {
    pub sides: Matrix,
    pub bounds: Vector,
    pub objectives: Matrix,
}

impl Matrix {
    /// The matrix of these cells, in working coordinates.
    fn of_cells(
        alloc: Global,
        dir: Dir,
        cells: &[Cell],
        rows: u32,
        cols: u32,
    ) -> Result<Matrix, NoMemory>
        requires cells { IsTrue (are_cells rows cols cells.now) }
        requires rows { rows ≤ 100000 }
        requires cols { cols ≤ 100000 }
        ensures rows { IfOk result
            (λ m. m.rows ≡ map (spots_in axis.Row dir cells.now) (numbers_from 1 rows)) }
        ensures columns { IfOk result
            (λ m. m.columns ≡ map (spots_in axis.Column dir cells.now) (numbers_from 1 cols)) }
    {
        let rows = spots_by(alloc, Axis::Row, dir, cells, rows)?;
        let columns = spots_by(alloc, Axis::Column, dir, cells, cols)?;
        Ok(Matrix { rows, columns })
    }

    /// The matrix of these rows.
    fn of_rows(alloc: Global, rows: Items<Sparse>, cols: u32) -> Result<Matrix, NoMemory>
        requires vectors { All (IsVector cols) rows }
        requires rows { length rows ≤ 400000 }
        requires cols { cols ≤ 100000 }
        ensures rows { IfOk result (λ m. m.rows ≡ rows) }
        ensures columns { IfOk result (λ m. m.columns
            ≡ map (spots_in axis.Column dir.Min (cells_from 1 rows)) (numbers_from 1 cols)) }
    {
        let cells = cells_of(alloc, rows.as_slice())?;
        let columns = spots_by(alloc, Axis::Column, Dir::Min, cells.as_slice(), cols)?;
        Ok(Matrix { rows, columns })
    }
}

/// The inequalities of a problem, those of the rows first.
fn sides_of(alloc: Global, problem: &Problem) -> Result<Sides, NoMemory>
    ensures vectors { IfOk result (λ s. All (IsVector problem.now.cols) s.normals) }
    ensures normals { IfOk result
        (λ s. map (dense problem.now.cols) s.normals ≡ normals problem.now) }
    ensures bounds { IfOk result (λ s. s.bounds ≡ side_bounds problem.now) }
{
    let cells = problem.a.as_slice();
    let rows = spots_by(alloc, Axis::Row, Dir::Min, cells, problem.rows)?;
    let units = units(alloc, problem.cols)?;
    let mut sides = Sides {
        normals: Items::new(alloc),
        bounds: Items::new(alloc),
    };
    sides.push_bounds(alloc, rows.as_slice(), problem.row_bounds.as_slice())?;
    sides.push_bounds(alloc, units.as_slice(), problem.col_bounds.as_slice())?;
    Ok(sides)
}

impl Matrices {
    ghost use Rattle.vlp_matrices.specs.Matrices.{AreMatricesOf};

    /// The matrices of a problem. It costs the entries that are not 0, the rows and the columns.
    pub fn of(alloc: Global, problem: &Problem) -> Result<Matrices, NoMemory>
        ensures { IfOk result (AreMatricesOf problem.now) }
    {
        let Sides { normals, bounds } = sides_of(alloc, problem)?;
        let sides = Matrix::of_rows(alloc, normals, problem.cols)?;
        let cells = problem.o.as_slice();
        let objectives = Matrix::of_cells(alloc, problem.dir, cells, problem.objs, problem.cols)?;
        Ok(Matrices {
            sides,
            bounds,
            objectives,
        })
    }
}
