//! Double description: the generators of the cone of rows, kept by one row at a time.
#![tactic(auto)]

mod by_row;
mod dd;
mod fault;
mod generator;
mod made;
mod moves;
mod next;
mod pairs;
mod parts;
mod points;
mod reach;
mod scales;
mod starting;
mod steps;
mod wholes;

pub use dd::Dd;
pub use fault::{Change, DdFault, Pair};
