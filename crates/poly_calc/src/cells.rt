//! Matrices and bounds that are put together.
ghost use Rattle.std.specs.Prelude.{◌≡◌, ◌≤◌, ◌++◌, All, OnOk, replicate};
ghost use Rattle.poly_calc.specs.Made.{moved, unit_cells, negated_row, IsNear};

use exact_field::Field;
use frac128::Frac;
use src_sink::{Items, NoMemory};
use vlp_problem::{Bound, Cell};

/// Appends cells, so many rows and columns further on.
pub(crate) fn push_moved(
    cells: &mut Items<Cell>,
    more: &[Cell],
    rows: u32,
    cols: u32,
) -> Result<(), NoMemory>
    requires near { All IsNear more.now }
    requires rows { rows ≤ 100000 }
    requires cols { cols ≤ 100000 }
    ensures { OnOk result (cells.new ≡ cells.old ++ moved rows cols more.now) }
{
    for cell in more {
        cells.push(Cell {
            row: cell.row + rows,
            col: cell.col + cols,
            value: cell.value,
        })?;
    }
    Ok(())
}

/// Appends a unit matrix, after so many rows.
pub(crate) fn push_units(cells: &mut Items<Cell>, rows: u32, count: u32) -> Result<(), NoMemory>
    requires rows { rows ≤ 100000 }
    requires count { count ≤ 100000 }
    ensures { OnOk result (cells.new ≡ cells.old ++ unit_cells rows count) }
{
    for before in 0..count {
        cells.push(Cell {
            row: rows + (before + 1),
            col: before + 1,
            value: Frac::from(1),
        })?;
    }
    Ok(())
}

/// Appends the negatives of a row's cells, so many columns further on.
pub(crate) fn push_negatives(
    cells: &mut Items<Cell>,
    more: &[Cell],
    row: u32,
    cols: u32,
) -> Result<(), NoMemory>
    requires near { All IsNear more.now }
    requires cols { cols ≤ 100000 }
    ensures { OnOk result (cells.new ≡ cells.old ++ negated_row row cols more.now) }
{
    for cell in more {
        if cell.row == row {
            cells.push(Cell {
                row,
                col: cols + cell.col,
                value: cell.value.neg(),
            })?;
        }
    }
    Ok(())
}

/// Appends a bound, so many times.
pub(crate) fn push_bounds(
    bounds: &mut Items<Bound>,
    bound: &Bound,
    count: u32,
) -> Result<(), NoMemory>
    ensures { OnOk result (bounds.new ≡ bounds.old ++ replicate count bound.now) }
{
    for _ in 0..count {
        bounds.push(*bound)?;
    }
    Ok(())
}
