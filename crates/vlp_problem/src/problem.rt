//! A vector linear program.
ghost use Rattle.std.specs.Prelude.{◌≡◌, ◌≤◌, ◌<◌, [], ◌∷◌, length, IsTrue, sum_by, count_by};
ghost use Rattle.vlp_problem.specs.Cells.{are_cells, place_before, rises_after, coefficient};
ghost use Rattle.vlp_problem.specs.Cones.{cone_fits, duality_fits};

use frac128::{Frac, Vector, Vectors};
use src_sink::Items;

/// Whether the objectives are minimised or maximised.
#[derive(Clone, Copy, Debug, PartialEq, Eq)]
pub enum Dir {
    Min,
    Max,
}

/// The bounds of a row's product or of a column's variable. `Unsaid` is that of a row or column
/// that the file gives none; it is free, as `Free` is.
#[derive(Clone, Copy, Debug, PartialEq, Eq)]
pub enum Bound {
    Unsaid,
    Free,
    Lower(Frac),
    Upper(Frac),
    /// The lower bound, and then the upper one. They may be crossed.
    Double(Frac, Frac),
    Fixed(Frac),
}

/// Rows, or columns.
#[derive(Clone, Copy, Debug)]
pub enum Axis {
    Row,
    Column,
}

/// The ordering cone, by vectors with an entry for each objective.
#[derive(Debug, PartialEq, Eq, Drop)]
pub enum Cone {
    /// All vectors without a negative entry.
    Orthant,
    /// The nonnegative combinations of these vectors.
    Gens(Vectors),
    /// The vectors whose product with each of these is at least 0.
    Dual(Vectors),
}

/// An entry of a matrix that is not 0, at its row and column, both from 1.
#[derive(Clone, Copy, Debug, PartialEq, Eq)]
pub struct Cell {
    pub row: u32,
    pub col: u32,
    pub value: Frac,
}

/// A vector linear program: minimise or maximise `P x` with respect to a cone, subject to bounds on
/// `B x` and on `x`.
#[derive(Debug, PartialEq, Eq, Drop)]
pub struct Problem {
    pub dir: Dir,
    /// How many rows B has.
    pub rows: u32,
    /// How many variables there are: the columns of B and P.
    pub cols: u32,
    /// How many objectives there are: the rows of P.
    pub objs: u32,
    /// The entries of B, in rising order of row and column.
    pub a: Items<Cell>,
    /// The entries of P, in rising order of row and column.
    pub o: Items<Cell>,
    pub row_bounds: Items<Bound>,
    pub col_bounds: Items<Bound>,
    pub cone: Cone,
    /// The duality vector that the file gives.
    pub duality: Option<Vector>,
    ghost rows_bounded: { rows ≤ 100000 },
    ghost some_column: { 0 < cols },
    ghost cols_bounded: { cols ≤ 100000 },
    ghost some_objective: { 0 < objs },
    ghost objs_bounded: { objs ≤ 100000 },
    ghost a_cells: { IsTrue (are_cells rows cols a) },
    ghost o_cells: { IsTrue (are_cells objs cols o) },
    ghost row_count: { length row_bounds ≡ rows },
    ghost col_count: { length col_bounds ≡ cols },
    ghost cone_vectors: { IsTrue (cone_fits objs cone) },
    ghost duality_entries: { IsTrue (duality_fits objs duality) },
}

impl Bound {
    ghost use Rattle.vlp_problem.specs.Sides.{is_unsaid, side_number};

    /// How many inequalities it stands for.
    fn side_count(self) -> u32
        ensures { result ≡ side_number self }
    {
        match self {
            Bound::Unsaid | Bound::Free => 0,
            Bound::Lower(_) | Bound::Upper(_) => 1,
            Bound::Double(_, _) | Bound::Fixed(_) => 2,
        }
    }

    /// How many inequalities all of these stand for.
    fn sides_among(bounds: &[Bound]) -> u32
        requires { length bounds.now ≤ 100000 }
        ensures value { result ≡ sum_by side_number bounds.now }
        ensures bound { result ≤ 200000 }
    {
        let mut total = 0;
        for bound in bounds {
            total += bound.side_count();
        }
        total
    }

    /// How many of these the file does not give.
    fn count_unsaid(bounds: &[Bound]) -> u32
        requires { length bounds.now ≤ 100000 }
        ensures { result ≡ count_by is_unsaid bounds.now }
    {
        let mut total = 0;
        for bound in bounds {
            if matches!(bound, Bound::Unsaid) {
                total += 1;
            }
        }
        total
    }
}

impl Cell {
    /// Whether it stands before a place, by row and then by column.
    fn is_before(&self, row: u32, col: u32) -> bool
        ensures { result ≡ place_before self.now.row self.now.col row col }
    {
        self.row < row || self.row == row && self.col < col
    }

    /// Its value at its own place, and 0 at another.
    fn value_at(self, row: u32, col: u32) -> Frac
        ensures { result ≡ coefficient (self ∷ []) row col }
    {
        if self.row == row && self.col == col {
            self.value
        } else {
            Frac::from(0)
        }
    }
}

/// The entry of a matrix at a place, found by halving its cells.
fn value_among(cells: &[Cell], row: u32, col: u32) -> Frac
    requires { IsTrue (rises_after 0 0 cells.now) }
    ensures { result ≡ coefficient cells.now row col }
{
    let at = cells.partition_point(|c| c.is_before(row, col));
    if at < cells.len() {
        cells[at].value_at(row, col)
    } else {
        Frac::from(0)
    }
}

impl Problem {
    ghost use Rattle.vlp_problem.specs.Sides.{sides, is_unsaid};

    /// The number of inequalities that the bounds stand for.
    pub fn side_count(&self) -> u32
        ensures { result ≡ length (sides self.now) }
    {
        Bound::sides_among(self.row_bounds.as_slice())
            + Bound::sides_among(self.col_bounds.as_slice())
    }

    /// The number of rows without a line of bounds.
    pub fn unsaid_rows(&self) -> u32
        ensures { result ≡ count_by is_unsaid self.now.row_bounds }
    {
        Bound::count_unsaid(self.row_bounds.as_slice())
    }

    /// The number of columns without a line of bounds.
    pub fn unsaid_cols(&self) -> u32
        ensures { result ≡ count_by is_unsaid self.now.col_bounds }
    {
        Bound::count_unsaid(self.col_bounds.as_slice())
    }

    /// The entry of B at a place, in the time of a binary search. Outside B it is 0.
    pub fn a_at(&self, row: u32, col: u32) -> Frac
        ensures { result ≡ coefficient self.now.a row col }
    {
        value_among(self.a.as_slice(), row, col)
    }
}
