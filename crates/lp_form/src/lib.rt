//! The named programs of a file: linear programs in equations over its sides, its objectives and
//! its ordering cone.
#![tactic(auto)]

mod cone;
mod data;
mod equations;
mod field;
pub mod laws;
mod name;
mod numbers;
mod pieces;
mod programs;
mod reading;
mod shown;

pub use cone::{interior_system, is_zero_vector, pointed_system, push_ones};
pub use data::{At, ConeOf, Data, DataFault, SideOf};
pub use name::{LpName, Parts};
pub use pieces::{column, negative, unit, zeros};
pub use programs::{benson_cost, program};
pub use reading::{choice, difference, parts};
pub use shown::{Cut, Preimage};
