//! Benson's outer approximation of the image: from data and a duality vector to the log that
//! describes it.
#![tactic(auto)]

mod chain;
mod engine;
mod nearby;
mod search;

pub use engine::primal;
