//! Whether the parts of a join have feasible vectors.
ghost use Rattle.std.specs.Prelude.{◌≡◌, ◌⊎◌, IfOk, map};
ghost use Rattle.benson_program.specs.Ends.{IsContradiction};
ghost use Rattle.replies.specs.Parts.{BothAreFeasible, EmptyTold, PartIsEmpty, PartStopped, StopTold};
ghost use Rattle.poly_calc.specs.Sets.{HasFeasible};
ghost use Rattle.commands.specs.declared.reply.Reply.{Reply as AReply};
ghost use Rattle.vlp_problem.specs.declared.problem.Problem.{Problem as AProblem};

use benson_program::{FeasibleEnd, feasible_end};
use commands::{Reply, Status, fault_reply};
use overflows::{SolveFault, spots_of};
use solver::data_of;
use src_sink::{Items, NoMemory};
use std::alloc::Global;
use tier_frac::Tier;
use vlp_problem::Problem;

/// The reply of a part whose sides contradict each other by these multipliers.
fn empty_reply(alloc: Global, second: bool, u: &Items<Tier>) -> Result<Reply, NoMemory>
    ensures { (part : AProblem) → IsContradiction part (map (λ q. q) u.now) →
        IfOk result (EmptyTold second part) }
{
    let u = spots_of(alloc, u.as_slice())?;
    fault_reply(alloc, Status::EmptyPart { second, u })
}

/// What is replied of a part, the first or the second, where it has no feasible vector, or where
/// that is not decided. Where it has one, nothing is replied.
fn part_reply(alloc: Global, second: bool, part: &Problem) -> Result<Option<Reply>, NoMemory>
    ensures some { IfOk result (λ reply. (r : AReply) → reply ≡ Some r →
        EmptyTold second part.now r ⊎ StopTold part.now r) }
    ensures none { IfOk result (λ reply. reply ≡ None → HasFeasible part.now) }
{
    let form = data_of(alloc, part)?;
    match feasible_end(alloc, &form) {
        Ok(FeasibleEnd::Point { .. }) => Ok(None),
        Ok(FeasibleEnd::Contradiction { u }) => {
            let reply = empty_reply(alloc, second, &u)?;
            Ok(Some(reply))
        }
        Err(SolveFault::Left(licence)) => {
            let reply = fault_reply(alloc, Status::Left(licence))?;
            Ok(Some(reply))
        }
        Err(SolveFault::NoMemory) => Err(NoMemory),
    }
}

/// What is replied where a part of a join has no feasible vector, or where that is not decided: the
/// first is asked first. Where both have one, nothing is replied.
pub(crate) fn parts_reply(
    alloc: Global,
    a: &Problem,
    b: &Problem,
) -> Result<Option<Reply>, NoMemory>
    ensures some { IfOk result (λ reply. (r : AReply) → reply ≡ Some r →
        PartIsEmpty a.now b.now r ⊎ PartStopped a.now b.now r) }
    ensures none { IfOk result (λ reply. reply ≡ None → BothAreFeasible a.now b.now) }
{
    if let Some(reply) = part_reply(alloc, false, a)? {
        return Ok(Some(reply));
    }
    part_reply(alloc, true, b)
}
