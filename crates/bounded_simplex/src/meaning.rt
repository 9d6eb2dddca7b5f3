//! What the variables of the duals stand for.
use std::alloc::Global;
use whole_programs::Ratio;

/// What a variable stands for.
#[derive(Clone, Copy, Debug, PartialEq, Eq)]
pub(crate) enum Kind {
    /// A column of the file.
    Column,
    /// The share of the duality vector, which is made the least.
    Share,
    /// The multiplier of a generator of the ordering cone.
    Multiplier,
    /// The product of a side's vector with the columns.
    Side,
    /// An entry of the objectives' vector, or its product with a vector of the cone's dual form.
    Objective,
    /// The value of an objective, which has no bound.
    Value,
}

/// A side that bounds a variable.
#[derive(Clone, Copy, Debug)]
pub(crate) struct Bound {
    /// The number of the side, from 0.
    pub(crate) side: usize,
    /// The bound, where the question is asked at a point.
    pub(crate) value: Ratio,
}

/// What a variable of the dual program stands for, and which sides bound it.
#[derive(Clone, Copy, Debug)]
pub(crate) struct Meaning {
    pub(crate) kind: Kind,
    /// The number of what it stands for, from 0.
    pub(crate) number: usize,
    /// A side that bounds it from below.
    pub(crate) low: Option<Bound>,
    /// A side that bounds it from above.
    pub(crate) high: Option<Bound>,
}

impl Meaning {
    /// A variable that no side bounds yet.
    pub(crate) fn new(kind: Kind, number: usize) -> Meaning {
        Meaning {
            kind,
            number,
            low: None,
            high: None,
        }
    }
}

/// The dual of Benson's program or of that of a weight, or its part on the sides alone, at a basis
/// of a solver.
#[derive(Debug, Drop)]
pub(crate) struct Dual<S: Drop> {
    pub(crate) alloc: Global,
    pub(crate) solver: S,
    /// One for each variable.
    pub(crate) meanings: Vec<Meaning>,
    /// The first of the multipliers, and the first of the variables of the objectives.
    pub(crate) multipliers: usize,
    pub(crate) objectives: usize,
}
