//! A representation of a polyhedron.
ghost use Rattle.std.specs.Prelude.{◌≤◌, IsTrue};
ghost use Rattle.std.specs.List.{list_all};
ghost use Rattle.rep_text.specs.Fits.{row_fits};

use frac128::Vector;
use src_sink::Items;

/// What a row says.
#[derive(Clone, Copy, Debug, PartialEq, Eq)]
pub enum RepKind {
    /// The inequality `h.z >= gamma`, with gamma after h.
    Side,
    /// The equation `h.z = gamma`, with gamma after h.
    Equal,
    /// A direction in which the polyhedron goes on both ways.
    Line,
    /// A member of the polyhedron.
    Point,
    /// A direction in which the polyhedron goes on.
    Direction,
}

/// A row of a representation.
#[derive(Debug, Drop)]
pub struct RepRow {
    pub kind: RepKind,
    pub v: Vector,
}

/// A polyhedron by points, directions and lines (a V-representation) where `gens` is true, and by
/// inequalities and equations (an H-representation) where it is false.
#[derive(Debug, Drop)]
pub struct Rep {
    pub gens: bool,
    /// How many entries the vectors of the polyhedron have.
    pub width: u32,
    pub rows: Items<RepRow>,
    ghost some_entry: { 1 ≤ width },
    ghost few_entries: { width ≤ 19 },
    ghost fitting: { IsTrue (list_all (row_fits gens width) rows) },
}
