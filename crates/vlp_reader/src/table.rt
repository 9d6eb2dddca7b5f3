//! The entries of a matrix that a file gives.
ghost use Rattle.std.specs.Prelude.{◌≡◌, ◌^◌, ◌<◌, ℕ, IsTrue, IfOk, is_some, unwrap_or, None, MatchResult};
ghost use Rattle.std.specs.BTreeMap.{btree_map_len};
ghost use Rattle.exact_field.specs.Rational.{zero_ℚ};
ghost use Rattle.vlp_problem.specs.Cells.{is_within, are_cells, coefficient};
ghost use Rattle.vlp_reader.specs.Places.{given};

use crate::fault::{FileKind, LineEnd};
use exact_field::Field;
use frac128::{Frac, Vector};
use src_sink::{Items, NoMemory};
use std::alloc::Global;
use std::collections::BTreeMap;
use vlp_problem::Cell;

/// The values given so far, zeros too, by row and column.
#[derive(Drop)]
pub(crate) struct Table {
    pub rows: u32,
    pub cols: u32,
    pub cells: BTreeMap<(u32, u32), Frac>,
    ghost within: { (i j : ℕ) →
        IsTrue (is_some (given cells i j)) → IsTrue (is_within rows cols i j) },
}

impl Table {
    ghost use Rattle.vlp_reader.specs.Ends.{ComesFrom};
    ghost use Rattle.vlp_reader.specs.Tables.{Adds, place_fault, table_column};

    /// No value is given yet.
    pub(crate) fn new(alloc: Global, rows: u32, cols: u32) -> Table
        ensures rows { result.rows ≡ rows }
        ensures cols { result.cols ≡ cols }
        ensures given { (i j : ℕ) → given result.cells i j ≡ None }
        ensures count { btree_map_len result.cells ≡ 0 }
    {
        Table {
            rows,
            cols,
            cells: BTreeMap::new(alloc),
        }
    }

    /// How many values are given.
    pub(crate) fn len(&self) -> usize
        ensures value { result ≡ btree_map_len self.now.cells }
        ensures bound { result < 2 ^ 63 }
    {
        self.cells.len()
    }

    /// Whether a place is one of the matrix.
    fn is_place(&self, row: u32, col: u32) -> bool
        ensures { result ≡ is_within self.now.rows self.now.cols row col }
    {
        0 < row && row <= self.rows && 0 < col && col <= self.cols
    }

    /// Gives a place its value.
    pub(crate) fn give(
        &mut self,
        row: u32,
        col: u32,
        number: Result<Frac, FileKind>,
    ) -> Result<(), LineEnd>
        ensures rows { self.new.rows ≡ self.old.rows }
        ensures cols { self.new.cols ≡ self.old.cols }
        ensures given { MatchResult result (λ _. (place_fault self.old row col number ≡ None)
            × Adds self.old self.new row col number)
            (ComesFrom (place_fault self.old row col number)) }
    {
        if !self.is_place(row, col) {
            return Err(LineEnd::Kind(FileKind::OutOfRange));
        }
        let before = self.cells.insert((row, col), number?)?;
        if before.is_some() {
            return Err(LineEnd::Kind(FileKind::Twice));
        }
        Ok(())
    }

    /// The values that are not 0, in the order of their places.
    pub(crate) fn to_cells(&self, alloc: Global) -> Result<Items<Cell>, NoMemory>
        ensures cells { IfOk result (λ cells.
            IsTrue (are_cells self.now.rows self.now.cols cells)) }
        ensures values { IfOk result (λ cells. (i j : ℕ) →
            coefficient cells i j ≡ unwrap_or (given self.now.cells i j) zero_ℚ) }
    {
        let mut cells = Items::new(alloc);
        for (place, value) in self.cells.iter() {
            if value.num() != 0 {
                cells.push(Cell {
                    row: place.0,
                    col: place.1,
                    value: *value,
                })?;
            }
        }
        Ok(cells)
    }

    /// The value given a place, or 0.
    fn value_at(&self, row: u32, col: u32) -> Frac
        ensures { result ≡ unwrap_or (given self.now.cells row col) zero_ℚ }
    {
        match self.cells.get(&(row, col)) {
            Some(value) => *value,
            None => Frac::from(0),
        }
    }

    /// A column of the matrix.
    pub(crate) fn column(&self, alloc: Global, col: u32) -> Result<Vector, NoMemory>
        ensures { IfOk result (λ v. v ≡ table_column self.now col) }
    {
        let mut entries = Items::new(alloc);
        for before in 0..self.rows {
            entries.push(self.value_at(before + 1, col))?;
        }
        Ok(entries)
    }
}
