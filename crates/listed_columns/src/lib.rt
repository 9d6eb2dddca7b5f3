//! The columns of a basis of a program, as a guess lists them: each with a number and with the
//! equations in which it has entries, which give an order that shows the columns to be independent.
#![tactic(auto)]

mod lists;
mod ordering;
mod table;

pub use lists::{number_of, part, place_of};
pub use table::{Basis, Layout, Ordered, magnitude};
