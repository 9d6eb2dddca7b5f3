//! What the made problems have in common.
ghost use Rattle.std.specs.Prelude.{◌≡◌, ◌<◌, ◌≤◌, length, IsTrue};
ghost use Rattle.vlp_problem.specs.Cells.{are_cells};
ghost use Rattle.poly_calc.specs.Made.{IsMade};

use src_sink::Items;
use std::alloc::Global;
use vlp_problem::{Bound, Cell, Cone, Dir, Problem};

/// The bounds of the rows and columns.
#[derive(Drop)]
pub(crate) struct Bounds {
    pub rows: Items<Bound>,
    pub cols: Items<Bound>,
}

/// The problem with these rows, columns and cells, and with one objective that is 0.
pub(crate) fn problem_of(
    alloc: Global,
    rows: u32,
    cols: u32,
    cells: Items<Cell>,
    bounds: Bounds,
) -> Problem
    requires few_rows { rows ≤ 100000 }
    requires some_column { 0 < cols }
    requires few_columns { cols ≤ 100000 }
    requires cells { IsTrue (are_cells rows cols cells) }
    requires row_count { length bounds.rows ≡ rows }
    requires col_count { length bounds.cols ≡ cols }
    ensures { IsMade result rows cols cells bounds.rows bounds.cols }
{
    Problem {
        dir: Dir::Min,
        rows,
        cols,
        objs: 1,
        a: cells,
        o: Items::new(alloc),
        row_bounds: bounds.rows,
        col_bounds: bounds.cols,
        cone: Cone::Orthant,
        duality: None,
    }
}
