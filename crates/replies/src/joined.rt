//! Sets that are made of the feasible sets of two problems.
ghost use Rattle.std.specs.Prelude.{◌↔◌, IfOk, IsTrue};
ghost use Rattle.replies.specs.Calculus.{JoinVerdict, MeetVerdict, SizesFit, SizesTold, SumVerdict};
ghost use Rattle.vlp_problem.specs.FileSizes.{HasFileSizes};

use crate::describe::describe;
use crate::parts::parts_reply;
use commands::{Reply, Status, fault_reply};
use poly_calc::{join_file, meet_file, sum_file};
use src_sink::NoMemory;
use std::alloc::Global;
use vlp_problem::Problem;

/// Whether the two have one number of columns, and at most 19.
fn sizes_fit(a: &Problem, b: &Problem) -> bool
    ensures { IsTrue result ↔ SizesFit a.now b.now }
{
    a.cols <= 19 && a.cols == b.cols
}

/// The reply where the numbers of columns do not fit.
fn sizes_reply(alloc: Global, a: &Problem, b: &Problem) -> Result<Reply, NoMemory>
    requires { SizesFit a.now b.now → ⊥ }
    ensures { IfOk result (SizesTold a.now b.now) }
{
    let sizes = Status::Sizes {
        first: a.cols,
        second: b.cols,
    };
    fault_reply(alloc, sizes)
}

/// Describes what is feasible for both problems.
pub fn meet_reply(alloc: Global, a: &Problem, b: &Problem) -> Result<Reply, NoMemory>
    requires first { HasFileSizes a.now }
    requires second { HasFileSizes b.now }
    ensures { IfOk result (MeetVerdict a.now b.now) }
{
    if !sizes_fit(a, b) {
        return sizes_reply(alloc, a, b);
    }
    let made = meet_file(alloc, a, b)?;
    describe(alloc, &made, a.cols, false)
}

/// Describes the sums of a feasible vector of each problem.
pub fn sum_reply(alloc: Global, a: &Problem, b: &Problem) -> Result<Reply, NoMemory>
    requires first { HasFileSizes a.now }
    requires second { HasFileSizes b.now }
    ensures { IfOk result (SumVerdict a.now b.now) }
{
    if !sizes_fit(a, b) {
        return sizes_reply(alloc, a, b);
    }
    let made = sum_file(alloc, a, b)?;
    describe(alloc, &made, a.cols, false)
}

/// Describes the closed convex hull of both feasible sets, where neither is empty.
pub fn join_reply(alloc: Global, a: &Problem, b: &Problem) -> Result<Reply, NoMemory>
    requires first { HasFileSizes a.now }
    requires second { HasFileSizes b.now }
    ensures { IfOk result (JoinVerdict a.now b.now) }
{
    if !sizes_fit(a, b) {
        return sizes_reply(alloc, a, b);
    }
    if let Some(reply) = parts_reply(alloc, a, b)? {
        return Ok(reply);
    }
    let made = join_file(alloc, a, b)?;
    describe(alloc, &made, a.cols, false)
}
