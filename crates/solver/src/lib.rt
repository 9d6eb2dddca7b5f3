//! From a problem to its answer and the log that proves it, and to what is replied of it.
#![tactic(auto)]

mod answering;
mod end;
mod laws;
mod logs;
mod naming;
mod own;
mod reply;
mod ways;

pub use answering::{data_of, solve, solve_dual};
pub use end::{Solution, SolveEnd};
pub use laws::replies_agree;
pub use logs::{dual_log_of, log_of};
pub use own::check_own;
pub use reply::{dual_reply, log_text, solve_reply, unsolved_reply};
