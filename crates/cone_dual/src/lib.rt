//! The ordering cone and its duality vector: the first fault of them, or the vector with what shows
//! that it fits; and the double description and the generators of a cone that is given by rows.
#![tactic(auto)]

mod asking;
mod combining;
mod described;
mod dual;
mod dual_form;
mod duality;
mod facts;
mod generators;
mod given;
mod lists;
mod orthant;
mod picked;

pub use described::{add_row, describe_rows};
pub use dual::dual_gens;
pub use duality::{ConeEnd, Duality};
pub use facts::cone_facts;
