//! The two representations of a polyhedron, by inequalities and by points, directions and lines:
//! how double description turns one into the other, and the log of it.
#![tactic(auto)]

mod adding;
mod check;
mod firsts;
mod giving;
mod laws;
mod line;
mod progress;
mod rows;
mod start;

pub use check::{ConvRefusal, check_conv};
pub use giving::other_rep;
pub use laws::{
    conversion_examples, conversion_is_right, conversion_keeps_set, events_are_rules, one_other,
    rules_keep_description,
};
pub use rows::text_rows;
