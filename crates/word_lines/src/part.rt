//! The parts of a line that are no numbers or vectors.

/// Two live generators between which a new one is made: the numbers of the one with a positive
/// value at the added row, and of the one with a negative value.
#[derive(Clone, Copy, Debug)]
pub struct LogPair {
    pub plus: u32,
    pub minus: u32,
}

/// Which answer a log ends with.
#[derive(Clone, Copy, Debug, PartialEq, Eq)]
pub enum EndKind {
    Infeasible,
    Whole,
    NoVertex,
    Solved,
}
