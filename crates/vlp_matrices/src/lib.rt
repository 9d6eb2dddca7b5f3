//! The sides and the objectives of a problem as matrices, by rows and by columns, with their
//! entries that are not 0 alone.
#![tactic(auto)]

mod matrices;
mod matrix;

pub use matrices::{Matrices, Matrix};
