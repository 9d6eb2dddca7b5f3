//! Benson's program solved, and what is read off it: cuts, pre-images and what shows that an image
//! is everything.
#![tactic(auto)]

mod cut;
mod ends;
mod kept;
mod laws;
mod preimage;
mod same;
mod solving;
mod whole;
mod written;

pub use cut::cut_of;
pub use ends::{BensonEnd, FeasibleEnd};
pub use kept::Kept;
pub use laws::{
    answers_exclude, benson_bounded, benson_cut, benson_preimage, benson_whole, feasible_ends,
};
pub use preimage::preimage_of;
pub use solving::{benson_end, feasible_end};
pub use whole::{WholeParts, whole_of};
