//! Sets made of the feasible sets of problems: what is feasible for both, sums, closed convex hulls
//! of both, and images, each as the projection of a made problem's feasible set on its first
//! columns.
#![tactic(auto)]

mod cells;
mod join;
mod laws;
mod made;
mod map;
mod meet;
mod sides;
mod sum;

pub use join::join_file;
pub use laws::{
    intervals_example, join_projects, map_projects, meet_projects, parts_example, sum_projects,
};
pub use map::map_file;
pub use meet::meet_file;
pub use sum::sum_file;
