//! How the description of an image begins: its lines and first cuts, or what shows that it has
//! none, with the log that says so.
#![tactic(auto)]

mod across;
mod asking;
mod first;
mod further;
mod laws;
mod logs;

pub use across::level_vectors;
pub use asking::{Asked, ask};
pub use benson_program::Kept;
pub use first::{First, first_cuts};
pub use further::entries_of;
pub use laws::first_answers_exclude;
pub use logs::{contradiction_log, everything_log};
