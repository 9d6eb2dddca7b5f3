//! The operations of an exact field, and what is left where an exact value is not held.

/// An operation with two operands.
#[derive(Clone, Copy, Debug, PartialEq, Eq)]
pub enum Op {
    /// `a + b`.
    Add,
    /// `a - b`.
    Sub,
    /// `a b`.
    Mul,
    /// `a / b`.
    Div,
}

/// An operation whose exact value is not held, with both operands as they were given.
#[derive(Clone, Copy, Debug, PartialEq, Eq)]
pub struct Left<F> {
    /// What was to be calculated.
    pub op: Op,
    /// The first operand; of a quotient the dividend.
    pub a: F,
    /// The second operand; of a quotient the divisor.
    pub b: F,
}
