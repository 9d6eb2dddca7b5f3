//! What a log proves.

use frac128::{Frac, Sparse, Vector};
use src_sink::Items;

/// A point or direction, with a pre-image.
#[derive(Debug, Drop)]
pub struct Gen {
    pub y: Vector,
    pub pre: Sparse,
}

/// A line: a vector along which the image goes on for ever both ways, with a pre-image of it and
/// one of its negative.
#[derive(Debug, Drop)]
pub struct LineGen {
    pub d: Vector,
    pub ray: Sparse,
    pub back: Sparse,
}

/// The inequality `w.y >= gamma`, or `<=` for a maximising file, with its dual vector, and the
/// numbers of the points and directions at which it is an equation. Points are numbered from 1, and
/// directions go on.
#[derive(Debug, Drop)]
pub struct Facet {
    pub w: Vector,
    pub gamma: Frac,
    pub u: Sparse,
    pub tight: Items<u32>,
}

/// The answer to a vector linear program, in the coordinates of its file.
#[derive(Debug, Drop)]
pub enum Answer {
    /// The sides contradict each other: these multipliers show it.
    Infeasible {
        u: Sparse,
    },
    /// The image is everything.
    Whole {
        c: Vector,
        x: Sparse,
        ray: Sparse,
    },
    /// The lines of the image in reduced echelon form, the vertices and the extreme directions of
    /// its reduced part, and its facets, each of the last three lists in rising order.
    Solved {
        c: Vector,
        lines: Items<LineGen>,
        points: Items<Gen>,
        directions: Items<Gen>,
        facets: Items<Facet>,
    },
}
