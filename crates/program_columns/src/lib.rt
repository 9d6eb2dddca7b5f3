//! The programs of the sides by their columns, which are taken as they lie in the data: no table is
//! written.
#![tactic(auto)]

mod columns;
mod written;

pub use columns::Columns;
pub use written::columns_of;
