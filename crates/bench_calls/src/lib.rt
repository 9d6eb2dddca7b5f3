//! Calls that drivers in C and C++ time beside GMP, PPL and QSopt_ex: operations on fractions and
//! programs of them, double descriptions, and linear programs.
#![tactic(auto)]

mod cones;
mod fractions;
mod lines;
mod programs;
mod steps;

pub use fractions::{Number, Operands, Wide};
pub use programs::Value;
pub use steps::Step;
