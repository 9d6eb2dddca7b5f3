//! Fractions in two sizes: in words where both parts fit into an `i64`, and else as fractions of
//! 120-bit numbers.
#![tactic(auto)]

mod dot;
mod exact;
mod tier;
mod words;

pub use tier::Tier;
