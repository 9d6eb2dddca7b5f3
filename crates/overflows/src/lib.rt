//! What an overflow is, when it is licensed, and licences from what calls tell of their overflows,
//! in any exact field.
#![tactic(auto)]

mod dd_licences;
mod fault;
pub mod laws;
mod licences;
mod numbers;
mod quotients;
mod spots;
mod sums;
mod written;

pub use dd_licences::{add_fault, start_fault};
pub use fault::{SolveFault, SumFault};
pub use licences::{elimination_fault, program_fault, term_fault};
pub use numbers::{fractions, operation};
pub use quotients::quotients_of;
pub use spots::spots_of;
pub use sums::sum_of_products;
pub use written::{
    duality_is_written, fractions_are_written, naturals_are_written, spots_are_written,
};
