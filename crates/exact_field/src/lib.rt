//! Exact numbers: the rational numbers, their laws, and the trait of exact fields.
#![tactic(auto)]

pub mod field;
pub mod laws;
pub mod op;
pub mod over;
pub mod sign;

pub use field::Field;
pub use op::{Left, Op};
pub use sign::{is_negative, is_positive, is_zero};
