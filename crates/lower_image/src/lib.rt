//! The lower image of a problem: the program of a weight solved and read off, the cone of dual
//! vectors that the rows of points and directions cut out, and all facets of the image by it.
#![tactic(auto)]

mod certificate;
mod ends;
mod facets;
mod kept;
mod laws;
mod rows;
mod search;
mod solving;
mod spanning;
mod starting;
mod touching;
mod weighing;

pub use facets::{AllFacets, all_facets};
pub use laws::{
    certified_are_facets, from_all_facets, lower_examples, lower_generators, lower_rows,
    lower_start, lower_turns, weight_bounded, weight_choice, weight_cut, weight_ray,
};
