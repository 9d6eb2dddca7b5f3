//! The top call: a command's words and four objects of the outside, to a status.
#![tactic(auto)]

mod converting;
mod examine;
mod prepare;
mod reading;
mod relog;
mod sampling;
mod top;

pub use top::run;
