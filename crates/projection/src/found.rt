//! What a projection is.

use frac128::Sparse;
use log_rules::{Facet, Gen, LineGen};
use src_sink::Items;

/// The projection of a feasible set on its first columns.
#[derive(Debug, Drop)]
pub enum Projection {
    /// The feasible set is empty: these multipliers of the sides show it.
    Empty {
        u: Sparse,
    },
    /// The lines, points and directions of the projection, each with its choices, and the facets of
    /// the associated image, of which each is a side: a vector lies in the projection exactly where
    /// it, followed by minus the sum of its entries, meets all of them. The tight numbers of a
    /// facet are those of the associated image, whose further directions are numbered too.
    Found {
        lines: Items<LineGen>,
        points: Items<Gen>,
        directions: Items<Gen>,
        sides: Items<Facet>,
    },
}
