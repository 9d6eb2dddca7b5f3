//! What a vector linear program is: its matrices, bounds and ordering cone; and the linear programs that
//! are asked of it, by name.
#![tactic(auto)]

mod problem;
mod program;

pub use problem::{Axis, Bound, Cell, Cone, Dir, Problem};
pub use program::Program;
