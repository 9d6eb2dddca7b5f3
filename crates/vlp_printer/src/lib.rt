//! Vector linear programs as texts of vlp files.
#![tactic(auto)]

mod decimal;
mod fault;
pub mod laws;
mod numbers;
mod print;

pub use fault::PrintFault;
pub use print::print_vlp;
