//! The description of the first columns of a problem.
ghost use Rattle.std.specs.Prelude.{◌≤◌, ◌<◌, IfOk};
ghost use Rattle.replies.specs.Described.{Describes};

use commands::{Reply, Status};
use projection::{associated_problem, project_answer, projection_text};
use solver::{log_text, solve, unsolved_reply};
use src_sink::NoMemory;
use std::alloc::Global;
use vlp_problem::Problem;

/// Solves the associated problem, and tells the projection on the first k columns that its answer
/// gives, with the log that proves the answer or without, or why there is no answer.
pub(crate) fn describe(alloc: Global, file: &Problem, k: u32, logs: bool) -> Result<Reply, NoMemory>
    requires from_one { 0 < k }
    requires at_most { k ≤ 19 }
    requires columns { k ≤ file.now.cols }
    ensures { IfOk result (Describes k file.now logs) }
{
    let made = associated_problem(alloc, file, k)?;
    match solve(alloc, &made) {
        Ok(solution) => {
            let found = project_answer(alloc, k, &solution.answer)?;
            let text = projection_text(alloc, k, &found)?;
            let log = log_text(alloc, &made, &solution, logs)?;
            let status = Status::Done;
            Ok(Reply { status, text, log })
        }
        Err(end) => unsolved_reply(alloc, end),
    }
}
