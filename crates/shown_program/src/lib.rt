//! Exact tests of guessed ends of a named program, which is not written for them: its columns are
//! taken as they lie in the data, and nothing is eliminated but a small part of a basis.
#![tactic(auto)]

mod direction;
mod empty;
mod farkas;
mod lists;
mod order;
mod prices;
mod range;
mod ray;
mod shown;
mod solution;
mod sparse;

pub use empty::contradiction_of;
pub use ray::ray_of;
pub use shown::optimum_of;
