//! What is replied of what is read off a solution: of feasible sets and what is made of them, for
//! one problem or two, and of weights; of a representation: the other one of the same set, with a
//! log of the conversion or without, or what the check of such a log gives; and of samples, which a
//! number begins.
#![tactic(auto)]

mod checking;
pub mod conversion_laws;
mod describe;
mod draws;
mod file;
mod joined;
mod lines;
mod mapped;
mod parts;
mod projected;
pub mod sample_laws;
mod turning;
mod weights;

pub use checking::reconv_reply;
pub use file::{sample_file, sample_text};
pub use joined::{join_reply, meet_reply, sum_reply};
pub use lines::summary;
pub use mapped::map_reply;
pub use projected::{associate_reply, project_reply};
pub use turning::{facets_reply, vertices_reply};
pub use weights::{weigh_reply, weights_reply};
