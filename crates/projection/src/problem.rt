//! The associated problem.
ghost use Rattle.std.specs.Prelude.{◌≡◌, ◌<◌, ◌≤◌, ℕ, List, IfOk};
ghost use Rattle.projection.specs.Associated.{associated_cells, IsAssociated};

use frac128::Frac;
use src_sink::{Items, NoMemory};
use std::alloc::Global;
use vlp_problem::{Bound, Cell, Cone, Dir, Problem};

/// The objectives: the first k columns, and minus their sum.
fn objectives(alloc: Global, k: u32) -> Result<Items<Cell>, NoMemory>
    requires { k ≤ 19 }
    ensures { IfOk result (λ cells. cells ≡ associated_cells k) }
{
    let mut cells = Items::new(alloc);
    for before in 0..k {
        cells.push(Cell {
            row: before + 1,
            col: before + 1,
            value: Frac::from(1),
        })?;
    }
    for before in 0..k {
        cells.push(Cell {
            row: k + 1,
            col: before + 1,
            value: Frac::from(-1),
        })?;
    }
    Ok(cells)
}

/// A copy of cells.
fn same_cells(alloc: Global, cells: &Items<Cell>) -> Result<Items<Cell>, NoMemory>
    ensures { IfOk result (λ copy. copy ≡ cells.now) }
{
    let mut copy = Items::new(alloc);
    copy.append(cells.as_slice())?;
    Ok(copy)
}

/// A copy of bounds.
fn same_bounds(alloc: Global, bounds: &Items<Bound>) -> Result<Items<Bound>, NoMemory>
    ensures { IfOk result (λ copy. copy ≡ bounds.now) }
{
    let mut copy = Items::new(alloc);
    copy.append(bounds.as_slice())?;
    Ok(copy)
}

/// The associated problem of a problem and of its first k columns: over the same rows, columns and
/// bounds it minimises these columns, and minus their sum, for the orthant. So its image has the
/// projection of the feasible set on these columns as the slice of the vectors whose entries sum
/// to 0.
pub fn associated_problem(alloc: Global, problem: &Problem, k: u32) -> Result<Problem, NoMemory>
    requires from_one { 0 < k }
    requires at_most { k ≤ 19 }
    requires columns { k ≤ problem.now.cols }
    ensures { IfOk result (IsAssociated k problem.now) }
{
    Ok(Problem {
        dir: Dir::Min,
        rows: problem.rows,
        cols: problem.cols,
        objs: k + 1,
        a: same_cells(alloc, &problem.a)?,
        o: objectives(alloc, k)?,
        row_bounds: same_bounds(alloc, &problem.row_bounds)?,
        col_bounds: same_bounds(alloc, &problem.col_bounds)?,
        cone: Cone::Orthant,
        duality: None,
    })
}
