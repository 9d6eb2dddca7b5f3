//! Bases of linear programs whose numbers stay short: in block triangular form, each block factored
//! by itself, over reduced fractions.
//!
//! A number that is not held is kept as such, and who needs its sign stops. Nothing is promised of
//! what is calculated: it is for guesses that are tested.
#![tactic(auto)]

mod basis;
mod blocks;
mod columns;
mod components;
mod digits;
mod elimination;
mod halt;
mod matching;
mod number;
mod shared;
mod solving;

pub use basis::Basis;
pub use columns::{Part, zeros};
pub use digits::{Multiple, sign_of_sum};
pub use halt::Halt;
pub use number::Number;
pub use shared::{Shared, numerator_at, shared_of, short, unit_with};
