//! Fractions of 120-bit whole numbers, vectors of them and their products, and their canonical
//! text.
#![tactic(auto)]

mod exact;
mod fault;
mod frac;
pub mod gcd;
mod joint;
pub mod laws;
mod order;
pub mod sign;
mod size;
mod text;
mod tiny;
mod vectors;

pub use fault::FracFault;
pub use frac::{Frac, Sum, frac_of, wide_product};
pub use size::LIMIT;
pub use text::put_frac;
pub use tiny::Tiny;
pub use vectors::{Sparse, Spot, Vector, Vectors, is_zero};
