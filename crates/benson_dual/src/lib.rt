//! The dual engine: all facets of an image by an outer approximation of its lower image, and the
//! log of the image over them, in an order in which no addition overflows, if one of a few is such.
#![tactic(auto)]

mod approximation;
mod engine;
mod image;
mod laws;
mod order;
mod picking;

pub use engine::dual;
pub use laws::{dual_lines_tell, image_parts_agree};
