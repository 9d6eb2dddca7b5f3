//! Sets of numbers below a bound, by the bits of 64-bit words.
#![tactic(auto)]

mod marks;
mod words;

pub use marks::Marks;
