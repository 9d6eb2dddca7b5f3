//! Weights: for which of them the vertices of an image are least, and what is least for given ones.
#![tactic(auto)]

mod laws;
mod least;
mod lines;
mod sets;
mod text;
mod walk;
mod weighed;

pub use laws::{
    points_are_enough, proved_are_weight_sets, weighed_is_right, weight_sets_are_tight,
    weights_are_hull, worked_sets, worked_texts, worked_weighing,
};
pub use least::weigh;
pub use sets::weight_sets;
pub use text::{weighed_text, weights_text};
pub use weighed::{WeighEnd, Weighed};
