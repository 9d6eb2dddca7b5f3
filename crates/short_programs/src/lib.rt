//! What a solver of linear programs needs beside a basis, over numbers of which some are not held:
//! bounds, columns and sums of rows, lengths of steps, and ways to choose.
#![tactic(auto)]

mod bounds;
mod candidate;
mod equations;
mod pricing;

pub use bounds::{Bounds, bounds_of};
pub use candidate::Candidate;
pub use equations::{columns_of, sum_of_rows, take_column};
pub use pricing::{PRICINGS, Pricing};
