//! What an overflow is shown by: the operation, where it stands, and the entries made so far.
use crate::entry::Entries;
use exact_field::Left;
use frac128::{Frac, Vector, Vectors};
use src_sink::Items;
use vlp_problem::Program;

/// What the rows of a double description are.
#[derive(Clone, Copy, Debug, PartialEq, Eq)]
pub enum Family {
    /// The row `t >= 0` and the cuts of an image.
    Image,
    /// The rows of found points and directions, over homogenised dual vectors.
    Exchanged,
    /// The vectors of the ordering cone.
    ConeRows,
    /// The rows of a text of a representation.
    Rep,
}

/// Where an operation stands. Rows, columns, entries and steps are counted from 1.
#[derive(Debug, Drop)]
pub enum Place {
    /// A pivot of a program's dictionary at a basis.
    Pivot {
        program: Program,
        basis: Items<u32>,
        row: u32,
        col: u32,
        step: u8,
    },
    /// A step of an elimination of rows.
    Elim {
        rows: Vectors,
        basis: Items<u32>,
        row: u32,
        col: u32,
        step: u8,
    },
    /// A step of double description, over these rows, of which the last is the one that is added.
    Pair {
        family: Family,
        rows: Vectors,
        first: u32,
        second: u32,
        step: u64,
    },
    /// A step of the row that stands for a point, or for a direction where `t` is false.
    Exchange {
        y: Vector,
        t: bool,
        step: u64,
    },
    /// An entry of a vector by the number that norms it.
    Scale {
        vector: Vector,
        entry: u32,
    },
    /// A step of the check of an entry.
    Step {
        entry: u32,
        step: u64,
    },
}

/// An overflow: where the operation stands, its operands, and the entries made so far.
#[derive(Debug, Drop)]
pub struct Licence {
    pub place: Place,
    pub left: Left<Frac>,
    pub trail: Entries,
}
