//! The projection of a problem's feasible set on its first columns.
ghost use Rattle.std.specs.Prelude.{◌≤◌, ◌<◌, All, IfOk};
ghost use Rattle.replies.specs.Projected.{AssociateVerdict, ColumnsWanting, ProjectVerdict};
ghost use Rattle.vlp_printer.specs.Printing.{HasWord};
ghost use Rattle.vlp_problem.specs.Values.{printed_numbers};

use crate::describe::describe;
use commands::{Reply, Status, fault_reply};
use projection::associated_problem;
use src_sink::NoMemory;
use std::alloc::Global;
use vlp_printer::{PrintFault, print_vlp};
use vlp_problem::Problem;

/// The reply where more columns are asked for than there are.
fn columns_reply(alloc: Global, file: &Problem, k: u32) -> Result<Reply, NoMemory>
    requires { file.now.cols < k }
    ensures { IfOk result (ColumnsWanting k file.now) }
{
    let cols = file.cols;
    fault_reply(alloc, Status::Columns { asked: k, cols })
}

/// Describes the projection of the feasible set on its first k columns, with the log of the
/// associated problem or without.
pub fn project_reply(alloc: Global, file: &Problem, k: u32, logs: bool) -> Result<Reply, NoMemory>
    requires from_one { 0 < k }
    requires at_most { k ≤ 19 }
    ensures { IfOk result (ProjectVerdict k logs file.now) }
{
    if file.cols < k {
        columns_reply(alloc, file, k)
    } else {
        describe(alloc, file, k, logs)
    }
}

/// Writes the problem that is associated with the feasible set and its first k columns, as a file
/// gives it.
pub fn associate_reply(alloc: Global, file: &Problem, k: u32) -> Result<Reply, NoMemory>
    requires from_one { 0 < k }
    requires at_most { k ≤ 19 }
    requires words { All HasWord (printed_numbers file.now) }
    ensures { IfOk result (AssociateVerdict k file.now) }
{
    if file.cols < k {
        return columns_reply(alloc, file, k);
    }
    let made = associated_problem(alloc, file, k)?;
    match print_vlp(alloc, &made) {
        Ok(text) => Ok(Reply {
            status: Status::Done,
            text,
            log: None,
        }),
        Err(PrintFault::NotDecimal(_)) => unreachable!(),
        Err(PrintFault::NoMemory) => Err(NoMemory),
    }
}
