//! Guesses at the ends of Benson's program, of that of a weight and of that of the sides, for the
//! tests of `shown_program`.
//!
//! Simplex methods with bounds run on the duals of the programs, which have a row for each row of
//! the file and for each objective, while the bounds of the file's columns take no row. A basis of
//! a dual names one of the program. From question to question only the bounds of the dual of
//! Benson's program change, and only what is minimised in that of a weight: so the dual method and
//! the primal one go on from the last basis. Where the sides contradict each other, the dual method
//! ends at a variable that shows it; where the program has no solution, its dual has no least value,
//! and the first phase is solved in the same way.
#![tactic(auto)]

mod bases;
mod building;
mod engine;
mod limits;
mod meaning;
mod reading;

pub use engine::Engine;
