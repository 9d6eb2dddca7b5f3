//! Linear programs over an exact field, by the two-phase simplex method: the columns that better a
//! cost row enter, and rows leave by the lexicographically least quotients, so that no basis comes
//! twice (Dantzig, Orden and Wolfe).
#![tactic(auto)]

mod answer;
mod driving;
mod hint;
mod kept;
mod measure;
mod opening;
mod phase;
mod ratio;
mod reading;
mod solve;

pub use answer::{LpEnd, LpFault};
pub use kept::Kept;
pub use solve::{solve_lp, solve_lp_from, solve_lp_next, solve_lp_with_cost};
