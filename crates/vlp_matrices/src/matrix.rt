//! Matrices by their cells, and by the sparse vectors of their rows or columns.
ghost use Rattle.std.specs.Prelude.{◌≡◌, ℕ, suc, ◌+◌, ◌<◌, ◌≤◌, replicate, map, length, All, IfOk, OnOk, List, [], ◌∷◌, ◌++◌};
ghost use Rattle.vlp_matrices.specs.Matrices.{key_of, spot_of, spots_in, row_cells, cells_from, turned_spot, unit_spots};
ghost use Rattle.upper_image.specs.UpperImage.{signed};
ghost use Rattle.vlp_problem.specs.Sides.{numbers_from};

use exact_field::Field;
use frac128::{Frac, Sparse, Spot, Vector};
use src_sink::{Items, NoMemory};
use std::alloc::Global;
use vlp_problem::{Axis, Bound, Cell, Dir};

/// So many empty lists.
fn empty_lists(alloc: Global, count: u32) -> Result<Vec<Sparse>, NoMemory>
    ensures { IfOk result (λ lists. lists.items ≡ replicate count []) }
{
    let mut lists = Vec::new(alloc);
    for _i in 0..count {
        lists.push(Items::new(alloc))?;
    }
    Ok(lists)
}

/// A number in working coordinates: its negative where the problem maximises.
fn turn_number(dir: Dir, value: Frac) -> Frac
    ensures { result ≡ signed dir value }
{
    match dir {
        Dir::Min => value,
        Dir::Max => value.neg(),
    }
}

/// The number of the row or column that a cell is in.
fn key_of(axis: Axis, cell: &Cell) -> u32
    ensures { result ≡ key_of axis cell.now }
{
    match axis {
        Axis::Row => cell.row,
        Axis::Column => cell.col,
    }
}

/// Its place there, and its value in working coordinates.
fn spot_of(axis: Axis, dir: Dir, cell: &Cell) -> Spot
    ensures { result ≡ spot_of axis dir cell.now }
{
    let at = match axis {
        Axis::Row => cell.col,
        Axis::Column => cell.row,
    };
    Spot {
        at,
        value: turn_number(dir, cell.value),
    }
}

/// The rows, or the columns, of a matrix by its cells, in working coordinates. It costs the cells
/// and the number of rows or columns.
pub fn spots_by(
    alloc: Global,
    axis: Axis,
    dir: Dir,
    cells: &[Cell],
    count: u32,
) -> Result<Items<Sparse>, NoMemory>
    requires few { count ≤ 100000 }
    requires from_one { All (λ c. 1 ≤ key_of axis c) cells.now }
    requires to_end { All (λ c. key_of axis c ≤ count) cells.now }
    ensures { IfOk result
        (λ lists. lists ≡ map (spots_in axis dir cells.now) (numbers_from 1 count)) }
{
    let mut lists = empty_lists(alloc, count)?;
    for cell in cells {
        let spot = spot_of(axis, dir, cell);
        lists[key_of(axis, cell) as usize - 1].push(spot)?;
    }
    Ok(Items::from_vec(lists))
}

/// Appends the cells of a row.
fn push_cells(cells: &mut Items<Cell>, row: u32, spots: &[Spot]) -> Result<(), NoMemory>
    ensures { OnOk result (cells.new ≡ cells.old ++ row_cells row spots.now) }
{
    for spot in spots {
        cells.push(Cell {
            row,
            col: spot.at,
            value: spot.value,
        })?;
    }
    Ok(())
}

/// The cells of a matrix by its rows.
pub fn cells_of(alloc: Global, rows: &[Sparse]) -> Result<Items<Cell>, NoMemory>
    requires { length rows.now ≤ 400000 }
    ensures { IfOk result (λ cells. cells ≡ cells_from 1 rows.now) }
{
    let mut cells = Items::new(alloc);
    let mut number = 0;
    for row in rows {
        number += 1;
        push_cells(&mut cells, number, row.as_slice())?;
    }
    Ok(cells)
}

/// A copy of a sparse vector, times -1 where `dir` says so.
fn turn_vector(alloc: Global, dir: Dir, spots: &[Spot]) -> Result<Sparse, NoMemory>
    ensures { IfOk result (λ v. v ≡ map (turned_spot dir) spots.now) }
{
    let mut copy = Items::new(alloc);
    for spot in spots {
        copy.push(Spot {
            at: spot.at,
            value: turn_number(dir, spot.value),
        })?;
    }
    Ok(copy)
}

/// The first `count` unit vectors, each as a sparse vector.
pub fn units(alloc: Global, count: u32) -> Result<Vec<Sparse>, NoMemory>
    ensures { IfOk result (λ lists. lists.items ≡ map unit_spots (numbers_from 1 count)) }
{
    let mut lists = Vec::new(alloc);
    for before in 0..count {
        let mut unit = Items::new(alloc);
        unit.push(Spot {
            at: before + 1,
            value: Frac::from(1),
        })?;
        lists.push(unit)?;
    }
    Ok(lists)
}

/// The vectors of a list of inequalities, and their bounds.
#[derive(Debug, Drop)]
pub struct Sides {
    pub normals: Items<Sparse>,
    pub bounds: Vector,
}

impl Sides {
    ghost use Rattle.vlp_matrices.specs.Matrices.{side_spots, side_values, all_side_spots};
    ghost use Rattle.std.specs.List.{flat_map};

    /// Appends an inequality "at least" or, turned round, one "at most".
    fn push(
        &mut self,
        alloc: Global,
        dir: Dir,
        vector: &[Spot],
        bound: Frac,
    ) -> Result<(), NoMemory>
        ensures normals { OnOk result
            (self.new.normals ≡ self.old.normals ++ map (turned_spot dir) vector.now ∷ []) }
        ensures bounds { OnOk result (self.new.bounds ≡ self.old.bounds ++ signed dir bound ∷ []) }
    {
        let normal = turn_vector(alloc, dir, vector)?;
        self.normals.push(normal)?;
        self.bounds.push(turn_number(dir, bound))
    }

    /// Appends those of one bound, the lower one first.
    fn push_bound(&mut self, alloc: Global, vector: &[Spot], bound: &Bound) -> Result<(), NoMemory>
        ensures normals { OnOk result
            (self.new.normals ≡ self.old.normals ++ side_spots vector.now bound.now) }
        ensures bounds { OnOk result (self.new.bounds ≡ self.old.bounds ++ side_values bound.now) }
    {
        let (lower, upper) = match bound {
            Bound::Unsaid | Bound::Free => (None, None),
            Bound::Lower(low) => (Some(low), None),
            Bound::Upper(high) => (None, Some(high)),
            Bound::Double(low, high) => (Some(low), Some(high)),
            Bound::Fixed(value) => (Some(value), Some(value)),
        };
        if let Some(&low) = lower {
            self.push(alloc, Dir::Min, vector, low)?;
        }
        if let Some(&high) = upper {
            self.push(alloc, Dir::Max, vector, high)?;
        }
        Ok(())
    }

    /// Appends those of all bounds, each with its vector.
    pub fn push_bounds(
        &mut self,
        alloc: Global,
        vectors: &[Sparse],
        bounds: &[Bound],
    ) -> Result<(), NoMemory>
        requires { length vectors.now ≡ length bounds.now }
        ensures normals { OnOk result
            (self.new.normals ≡ self.old.normals ++ all_side_spots vectors.now bounds.now) }
        ensures bounds { OnOk result
            (self.new.bounds ≡ self.old.bounds ++ flat_map side_values bounds.now) }
    {
        for i in 0..bounds.len() {
            self.push_bound(alloc, vectors[i].as_slice(), &bounds[i])?;
        }
        Ok(())
    }
}
