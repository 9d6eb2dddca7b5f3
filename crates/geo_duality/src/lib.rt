//! Geometric duality: the rows that are facets, the coupling of the image with its lower image, and
//! the rows by which points and directions stand for inequalities of the dual.
#![tactic(auto)]

mod coupling;
mod exchanged;
mod facets;
mod tight;

pub use coupling::phi;
pub use exchanged::{ExchangeFault, exchange};
pub use facets::facets_of;
