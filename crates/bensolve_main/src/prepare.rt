//! What a command replies: its texts are read, and its task is done.
ghost use Rattle.std.specs.Prelude.{◌≡◌, ◌≤◌, true, false, All, None, IfOk, IfErr};
ghost use Rattle.vlp_printer.specs.Printing.{HasWord};
ghost use Rattle.vlp_problem.specs.FileSizes.{HasFileSizes};
ghost use Rattle.vlp_problem.specs.Values.{printed_numbers};
ghost use Rattle.commands.specs.Paths.{log_in_path, problem_path};
ghost use Rattle.commands.specs.Seen.{files_seen, shape_seen, task_seen};
ghost use Rattle.bensolve_main.specs.Outcome.{HaltsFor, Replies};
ghost use Rattle.bensolve_main.specs.Reading.{log_limit, problem_limit};
ghost use Rattle.bensolve_main.specs.Stages.{FileTold, HaltsReading, LogTold, OneTold, ReadsLog, ReadsNothing, ReadsOne, ReadsProblem, ReadsTwo, SecondTold, ShapeFits, TaskFits, TwoHalts, TwoTold, WithLogHalts, WithLogTold};
ghost use Rattle.bensolve_main.specs.Tasks.{TellsAlone, TellsFile, TellsTwo, texts_of};
ghost use Rattle.bensolve_main.specs.World.{channel, sources};

use crate::converting::{one_rep, with_conv};
use crate::examine::examine;
use crate::reading::{read_problem, reply_at};
use crate::relog::relog;
use crate::sampling::sample_reply;
use commands::{Command, Files, Reply, Status, Task};
use replies::{
    associate_reply, join_reply, map_reply, meet_reply, project_reply, sum_reply, weigh_reply,
    weights_reply,
};
use solver::{dual_reply, solve_reply};
use src_sink::{NoMemory, Source};
use std::alloc::Global;
use vlp_problem::Problem;

/// The reply of a task that reads nothing.
fn alone_reply(alloc: Global, task: Task<'_>) -> Result<Reply, NoMemory>
    requires { ReadsNothing (task_seen task) }
    ensures { IfOk result (TellsAlone (task_seen task.entry)) }
{
    match task {
        Task::Sample { number } => sample_reply(alloc, number),
        _ => unreachable!(),
    }
}

/// The reply of a task that reads a problem, with a log or without.
fn file_reply(alloc: Global, task: Task<'_>, file: &Problem, logs: bool) -> Result<Reply, NoMemory>
    requires reads { ReadsProblem (task_seen task) }
    requires fits { TaskFits (task_seen task) }
    requires sizes { HasFileSizes file.now }
    requires words { All HasWord (printed_numbers file.now) }
    ensures { IfOk result (TellsFile (task_seen task.entry) logs file.now) }
{
    match task {
        Task::Solve => solve_reply(alloc, file, logs),
        Task::Dual => dual_reply(alloc, file, logs),
        Task::Project { columns } => project_reply(alloc, file, columns, logs),
        Task::Associate { columns } => associate_reply(alloc, file, columns),
        Task::Map => map_reply(alloc, file),
        Task::Weights => weights_reply(alloc, file),
        Task::Weigh { weights } => weigh_reply(alloc, file, weights),
        _ => unreachable!(),
    }
}

/// The reply of a task that reads two problems.
fn two_reply(
    alloc: Global,
    task: Task<'_>,
    first: &Problem,
    second: &Problem,
) -> Result<Reply, NoMemory>
    requires reads { ReadsTwo (task_seen task) }
    requires first_sizes { HasFileSizes first.now }
    requires second_sizes { HasFileSizes second.now }
    ensures { IfOk result (TellsTwo (task_seen task.entry) first.now second.now) }
{
    match task {
        Task::Meet => meet_reply(alloc, first, second),
        Task::Sum => sum_reply(alloc, first, second),
        Task::Join => join_reply(alloc, first, second),
        _ => unreachable!(),
    }
}

/// Reads the problem, and does a task of it. An `Err` is a status without a reply.
fn one_problem<S: Source>(
    alloc: Global,
    task: Task<'_>,
    logs: bool,
    problem: &mut S,
) -> Result<Reply, Status>
    requires reads { ReadsProblem (task_seen task) }
    requires fits { TaskFits (task_seen task) }
    ensures count { S.faults problem.old ≤ S.faults problem.new }
    ensures told { IfOk result (λ r. FileTold (task_seen task.entry) logs r
        (channel (S.left problem.old) (S.faults problem.old))
        (channel (S.left problem.new) (S.faults problem.new))) }
    ensures halts { IfErr result (λ s. HaltsReading false problem_limit s
        (channel (S.left problem.old) (S.faults problem.old))
        (channel (S.left problem.new) (S.faults problem.new))) }
{
    match read_problem(alloc, false, problem) {
        Ok(file) => Ok(file_reply(alloc, task, &file, logs)?),
        Err(end) => reply_at(end),
    }
}

/// Reads the one text of a task, and does the task. An `Err` is a status without a reply.
fn one_text<S: Source>(
    alloc: Global,
    task: Task<'_>,
    logs: bool,
    problem: &mut S,
) -> Result<Reply, Status>
    requires reads { ReadsOne (task_seen task) }
    requires fits { TaskFits (task_seen task) }
    ensures count { S.faults problem.old ≤ S.faults problem.new }
    ensures told { IfOk result (λ r. OneTold (texts_of (task_seen task.entry))
        (task_seen task.entry) logs r
        (channel (S.left problem.old) (S.faults problem.old))
        (channel (S.left problem.new) (S.faults problem.new))) }
    ensures halts { IfErr result (λ s. HaltsReading false problem_limit s
        (channel (S.left problem.old) (S.faults problem.old))
        (channel (S.left problem.new) (S.faults problem.new))) }
{
    match task {
        Task::Vertices | Task::Facets => one_rep(alloc, task, logs, problem),
        _ => one_problem(alloc, task, logs, problem),
    }
}

/// Reads the log, and does a task of the problem and the log. An `Err` is a status without a reply.
fn log_reply<L: Source>(
    alloc: Global,
    task: Task<'_>,
    file: &Problem,
    log_in: &mut L,
) -> Result<Reply, Status>
    requires { ReadsLog (task_seen task) }
    ensures count { L.faults log_in.old ≤ L.faults log_in.new }
    ensures told { IfOk result (λ r. LogTold (task_seen task.entry) file.now r
        (channel (L.left log_in.old) (L.faults log_in.old))
        (channel (L.left log_in.new) (L.faults log_in.new))) }
    ensures halts { IfErr result (λ s. HaltsReading true log_limit s
        (channel (L.left log_in.old) (L.faults log_in.old))
        (channel (L.left log_in.new) (L.faults log_in.new))) }
{
    match task {
        Task::Check => examine(alloc, file, log_in),
        Task::Relog => relog(alloc, file, log_in),
        _ => unreachable!(),
    }
}

/// Reads the problem, then the log, and does a task of both. An `Err` is a status without a reply.
fn with_log<S: Source, L: Source>(
    alloc: Global,
    task: Task<'_>,
    problem: &mut S,
    log_in: &mut L,
) -> Result<Reply, Status>
    requires { ReadsLog (task_seen task) }
    ensures counts { (S.faults problem.old ≤ S.faults problem.new)
        × (L.faults log_in.old ≤ L.faults log_in.new) }
    ensures told { IfOk result (λ r. WithLogTold (task_seen task.entry) r
        (sources (channel (S.left problem.old) (S.faults problem.old))
        (channel (L.left log_in.old) (L.faults log_in.old)))
        (sources (channel (S.left problem.new) (S.faults problem.new))
        (channel (L.left log_in.new) (L.faults log_in.new)))) }
    ensures halts { IfErr result (λ s. WithLogHalts s
        (sources (channel (S.left problem.old) (S.faults problem.old))
        (channel (L.left log_in.old) (L.faults log_in.old)))
        (sources (channel (S.left problem.new) (S.faults problem.new))
        (channel (L.left log_in.new) (L.faults log_in.new)))) }
{
    match read_problem(alloc, false, problem) {
        Ok(file) => log_reply(alloc, task, &file, log_in),
        Err(end) => reply_at(end),
    }
}

/// Reads the second problem, and does a task of both. An `Err` is a status without a reply.
fn second_text<L: Source>(
    alloc: Global,
    task: Task<'_>,
    first: &Problem,
    log_in: &mut L,
) -> Result<Reply, Status>
    requires reads { ReadsTwo (task_seen task) }
    requires sizes { HasFileSizes first.now }
    ensures count { L.faults log_in.old ≤ L.faults log_in.new }
    ensures told { IfOk result (λ r. SecondTold (task_seen task.entry) first.now r
        (channel (L.left log_in.old) (L.faults log_in.old))
        (channel (L.left log_in.new) (L.faults log_in.new))) }
    ensures halts { IfErr result (λ s. HaltsReading true problem_limit s
        (channel (L.left log_in.old) (L.faults log_in.old))
        (channel (L.left log_in.new) (L.faults log_in.new))) }
{
    match read_problem(alloc, true, log_in) {
        Ok(second) => Ok(two_reply(alloc, task, first, &second)?),
        Err(end) => reply_at(end),
    }
}

/// Reads two problems, and does a task of both. An `Err` is a status without a reply.
fn two_texts<S: Source, L: Source>(
    alloc: Global,
    task: Task<'_>,
    problem: &mut S,
    log_in: &mut L,
) -> Result<Reply, Status>
    requires reads { ReadsTwo (task_seen task) }
    ensures counts { (S.faults problem.old ≤ S.faults problem.new)
        × (L.faults log_in.old ≤ L.faults log_in.new) }
    ensures told { IfOk result (λ r. TwoTold (task_seen task.entry) r
        (sources (channel (S.left problem.old) (S.faults problem.old))
        (channel (L.left log_in.old) (L.faults log_in.old)))
        (sources (channel (S.left problem.new) (S.faults problem.new))
        (channel (L.left log_in.new) (L.faults log_in.new)))) }
    ensures halts { IfErr result (λ s. TwoHalts s
        (sources (channel (S.left problem.old) (S.faults problem.old))
        (channel (L.left log_in.old) (L.faults log_in.old)))
        (sources (channel (S.left problem.new) (S.faults problem.new))
        (channel (L.left log_in.new) (L.faults log_in.new)))) }
{
    match read_problem(alloc, false, problem) {
        Ok(first) => second_text(alloc, task, &first, log_in),
        Err(end) => reply_at(end),
    }
}

/// What a command replies. An `Err` is a status without a reply.
pub(crate) fn prepare<S: Source, L: Source>(
    alloc: Global,
    command: Command<'_>,
    problem: &mut S,
    log_in: &mut L,
) -> Result<Reply, Status>
    requires { ShapeFits (shape_seen command) }
    ensures counts { (S.faults problem.old ≤ S.faults problem.new)
        × (L.faults log_in.old ≤ L.faults log_in.new) }
    ensures problem { problem_path (files_seen command.entry.files) ≡ None →
        problem.new ≡ problem.old }
    ensures log_in { log_in_path (files_seen command.entry.files) ≡ None →
        log_in.new ≡ log_in.old }
    ensures told { IfOk result (λ r. Replies (shape_seen command.entry) r
        (sources (channel (S.left problem.old) (S.faults problem.old))
        (channel (L.left log_in.old) (L.faults log_in.old)))
        (sources (channel (S.left problem.new) (S.faults problem.new))
        (channel (L.left log_in.new) (L.faults log_in.new)))) }
    ensures halts { IfErr result (λ s. HaltsFor (texts_of (task_seen command.entry.task)) s
        (sources (channel (S.left problem.old) (S.faults problem.old))
        (channel (L.left log_in.old) (L.faults log_in.old)))
        (sources (channel (S.left problem.new) (S.faults problem.new))
        (channel (L.left log_in.new) (L.faults log_in.new)))) }
{
    let Command { task, files } = command;
    match files {
        Files::Nothing => Ok(alone_reply(alloc, task)?),
        Files::Problem { .. } => one_text(alloc, task, false, problem),
        Files::Log { .. } => one_text(alloc, task, true, problem),
        Files::Second { .. } => match task {
            Task::Check | Task::Relog => with_log(alloc, task, problem, log_in),
            Task::Reconv => with_conv(alloc, problem, log_in),
            _ => two_texts(alloc, task, problem, log_in),
        },
    }
}
