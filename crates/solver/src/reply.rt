//! What is replied of a problem.
ghost use Rattle.std.specs.Prelude.{◌≡◌, IfOk};
ghost use Rattle.log_rules.specs.Report.{report_text};
ghost use Rattle.solver.specs.Replies.{DualVerdict, IsLogged, SolveVerdict, Unsolved};
ghost use Rattle.solver.specs.Solving.{EndsSolving, IsSolutionOf};
ghost use Rattle.vlp_problem.specs.declared.problem.Problem.{Problem as AProblem};

use crate::answering::{solve, solve_dual};
use crate::end::{Solution, SolveEnd};
use commands::{Reply, Status, fault_reply};
use log_upgrade::upgrade_text;
use sol_writer::report;
use src_sink::{Bytes, NoMemory};
use std::alloc::Global;
use vlp_problem::Problem;

/// The log of a solution, where one is wanted: the text of the upgrade of its entries to version 2,
/// which costs a check of the log once more. Where none is wanted it costs nothing.
pub fn log_text(
    alloc: Global,
    file: &Problem,
    solution: &Solution,
    logs: bool,
) -> Result<Option<Bytes>, NoMemory>
    requires { IsSolutionOf file.now solution.now }
    ensures { IfOk result (IsLogged logs file.now solution.now) }
{
    if logs {
        let text = upgrade_text(alloc, file, &solution.entries)?;
        Ok(Some(text))
    } else {
        Ok(None)
    }
}

/// The reply of a solution, with its log or without.
fn solved_reply(
    alloc: Global,
    file: &Problem,
    solution: &Solution,
    logs: bool,
) -> Result<Reply, NoMemory>
    requires { IsSolutionOf file.now solution.now }
    ensures status { IfOk result (λ r. r.status ≡ Status.Done) }
    ensures report { IfOk result (λ r. r.text ≡ report_text file.now solution.now.answer) }
    ensures log { IfOk result (λ r. IsLogged logs file.now solution.now r.log) }
{
    Ok(Reply {
        status: Status::Done,
        text: report(alloc, file, &solution.answer)?,
        log: log_text(alloc, file, solution, logs)?,
    })
}

/// The reply where a problem has no solution.
pub fn unsolved_reply(alloc: Global, end: SolveEnd) -> Result<Reply, NoMemory>
    ensures { (file : AProblem) → EndsSolving file end → IfOk result (Unsolved file) }
{
    match end {
        SolveEnd::Cone(fault) => fault_reply(alloc, Status::ConeFault(fault)),
        SolveEnd::Left(licence) => fault_reply(alloc, Status::Left(licence)),
        SolveEnd::NoMemory => Err(NoMemory),
    }
}

/// Solves a problem, and tells its answer, with the log of version 2 that proves it or without, or
/// why there is none.
pub fn solve_reply(alloc: Global, file: &Problem, logs: bool) -> Result<Reply, NoMemory>
    ensures { IfOk result (SolveVerdict logs file.now) }
{
    match solve(alloc, file) {
        Ok(solution) => solved_reply(alloc, file, &solution, logs),
        Err(end) => unsolved_reply(alloc, end),
    }
}

/// The same by the approximation of the lower image, with a log over the facets alone.
pub fn dual_reply(alloc: Global, file: &Problem, logs: bool) -> Result<Reply, NoMemory>
    ensures { IfOk result (DualVerdict logs file.now) }
{
    match solve_dual(alloc, file) {
        Ok(found) => solved_reply(alloc, file, &found, logs),
        Err(end) => unsolved_reply(alloc, end),
    }
}
