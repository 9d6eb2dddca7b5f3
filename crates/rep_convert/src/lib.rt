//! The conversion of one representation of a polyhedron into the other by double description, with
//! a log of it that is accepted.
#![tactic(auto)]

mod begin;
mod conversion;
mod ends;
mod fault;
mod keys;
mod laws;
mod licences;
mod lines;
mod log;
mod order;
mod products;
mod start;
mod turn;

pub use conversion::convert;
pub use fault::{ConvFault, Converted};
pub use laws::licence_examples;
