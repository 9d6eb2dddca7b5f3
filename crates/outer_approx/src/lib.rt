//! Benson's outer approximation as a log: how the log begins and grows by cuts and pre-images
//! beside its double description, the start, the turns, the ends, and the logs that need no start.
#![tactic(auto)]

mod ends;
mod log;
mod places;
mod start;
mod turn;
mod unstarted;

pub use ends::end_solved;
pub use log::{Line, open_trail, push_cut_entry, push_preimage};
pub use places::{cut_row, places_of};
pub use start::start_outer;
pub use turn::{take, try_take};
pub use unstarted::{infeasible_log, whole_log};
