//! The projection of a problem's feasible set on its first columns: by the associated problem,
//! whose image has this projection as a slice; what an answer to it tells of it: its lines, points,
//! directions and sides, and what shows them; and its text.
#![tactic(auto)]

mod copies;
mod found;
mod found_laws;
mod laws;
mod levels;
mod problem;
mod project;
mod set;
mod text;

pub use found::Projection;
pub use found_laws::{found_example, found_is_right, worked_texts};
pub use laws::{
    associated_example, associated_is_associated, level_directions, never_whole, points_are_level,
    projection_example, projection_is_cut_out, projection_is_hull, projection_is_slice_of,
};
pub use problem::associated_problem;
pub use project::project_answer;
pub use text::projection_text;
