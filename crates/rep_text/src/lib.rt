//! The texts of the two representations of a polyhedron and of the logs of conversions between
//! them.
#![tactic(auto)]

mod conv;
mod conv_line;
mod conv_text;
mod fault;
mod laws;
mod reader;
mod rep;
mod writer;

pub use conv::{ConvEntry, ConvLog};
pub use conv_text::{print_conv, read_conv};
pub use fault::RepEnd;
pub use laws::{one_conv_reading, one_rep_reading, rep_examples};
pub use reader::read_rep;
pub use rep::{Rep, RepKind, RepRow};
pub use writer::print_rep;
