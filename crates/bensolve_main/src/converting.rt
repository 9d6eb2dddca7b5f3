//! What is told of a representation: it is read, and converted, or the log of a conversion is
//! checked.
ghost use Rattle.std.specs.Prelude.{◌≡◌, ◌≤◌, false, true, IfOk, IfErr};
ghost use Rattle.commands.specs.Seen.{task_seen};
ghost use Rattle.commands.specs.Tasks.Task.{reconv};
ghost use Rattle.bensolve_main.specs.Reading.{log_limit, problem_limit};
ghost use Rattle.bensolve_main.specs.Stages.{ConvTold, HaltsReading, ReadsRep, RepTold, WithConvHalts, WithConvTold};
ghost use Rattle.bensolve_main.specs.Tasks.{TellsRep};
ghost use Rattle.bensolve_main.specs.World.{channel, sources};

use crate::examine::LOG_LIMIT;
use crate::reading::{read_representation, read_text, reply_at};
use commands::{Reply, Status, Task};
use rep_text::Rep;
use replies::{facets_reply, reconv_reply, vertices_reply};
use src_sink::{NoMemory, Source};
use std::alloc::Global;

/// The reply of a task that reads a representation, with a log or without.
fn rep_reply(alloc: Global, task: Task<'_>, rep: &Rep, logs: bool) -> Result<Reply, NoMemory>
    requires { ReadsRep (task_seen task) }
    ensures { IfOk result (TellsRep (task_seen task.entry) logs rep.now) }
{
    match task {
        Task::Vertices => vertices_reply(alloc, rep, logs),
        Task::Facets => facets_reply(alloc, rep, logs),
        _ => unreachable!(),
    }
}

/// Reads the representation, and does a task of it. An `Err` is a status without a reply.
pub(crate) fn one_rep<S: Source>(
    alloc: Global,
    task: Task<'_>,
    logs: bool,
    problem: &mut S,
) -> Result<Reply, Status>
    requires { ReadsRep (task_seen task) }
    ensures count { S.faults problem.old ≤ S.faults problem.new }
    ensures told { IfOk result (λ r. RepTold (task_seen task.entry) logs r
        (channel (S.left problem.old) (S.faults problem.old))
        (channel (S.left problem.new) (S.faults problem.new))) }
    ensures halts { IfErr result (λ s. HaltsReading false problem_limit s
        (channel (S.left problem.old) (S.faults problem.old))
        (channel (S.left problem.new) (S.faults problem.new))) }
{
    match read_representation(alloc, problem) {
        Ok(rep) => Ok(rep_reply(alloc, task, &rep, logs)?),
        Err(end) => reply_at(end),
    }
}

/// Reads the log of a conversion, and checks it. An `Err` is a status without a reply.
fn conv_reply<L: Source>(alloc: Global, rep: &Rep, log_in: &mut L) -> Result<Reply, Status>
    ensures count { L.faults log_in.old ≤ L.faults log_in.new }
    ensures told { IfOk result (λ r. ConvTold reconv rep.now r
        (channel (L.left log_in.old) (L.faults log_in.old))
        (channel (L.left log_in.new) (L.faults log_in.new))) }
    ensures halts { IfErr result (λ s. HaltsReading true log_limit s
        (channel (L.left log_in.old) (L.faults log_in.old))
        (channel (L.left log_in.new) (L.faults log_in.new))) }
{
    match read_text(alloc, true, LOG_LIMIT, log_in) {
        Ok(bytes) => Ok(reconv_reply(alloc, rep, bytes)?),
        Err(end) => reply_at(end),
    }
}

/// Reads the representation, then the log of a conversion, and checks it. An `Err` is a status
/// without a reply.
pub(crate) fn with_conv<S: Source, L: Source>(
    alloc: Global,
    problem: &mut S,
    log_in: &mut L,
) -> Result<Reply, Status>
    ensures counts { (S.faults problem.old ≤ S.faults problem.new)
        × (L.faults log_in.old ≤ L.faults log_in.new) }
    ensures told { IfOk result (λ r. WithConvTold r
        (sources (channel (S.left problem.old) (S.faults problem.old))
        (channel (L.left log_in.old) (L.faults log_in.old)))
        (sources (channel (S.left problem.new) (S.faults problem.new))
        (channel (L.left log_in.new) (L.faults log_in.new)))) }
    ensures halts { IfErr result (λ s. WithConvHalts s
        (sources (channel (S.left problem.old) (S.faults problem.old))
        (channel (L.left log_in.old) (L.faults log_in.old)))
        (sources (channel (S.left problem.new) (S.faults problem.new))
        (channel (L.left log_in.new) (L.faults log_in.new)))) }
{
    match read_representation(alloc, problem) {
        Ok(rep) => conv_reply(alloc, &rep, log_in),
        Err(end) => reply_at(end),
    }
}
