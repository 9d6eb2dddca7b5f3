//! The check of a log.
ghost use Rattle.std.specs.Prelude.{◌≡◌, ◌≤◌, true, None, IfOk, IfErr};
ghost use Rattle.commands.specs.Tasks.Task.{check};
ghost use Rattle.log_rules.specs.Report.{report_text};
ghost use Rattle.bensolve_main.specs.World.{channel};
ghost use Rattle.bensolve_main.specs.Stages.{HaltsEnd, HaltsReading, LogTold, TellsEnd};
ghost use Rattle.bensolve_main.specs.Reading.{log_limit};

use crate::reading::long_reply;
use cert_check::{Answer, Refusal, StreamEnd, check_from};
use commands::{LogRefusal, Reply, Status, refused_reply, step_reply};
use sol_writer::report;
use src_sink::{NoMemory, Source};
use std::alloc::Global;
use vlp_problem::Problem;

/// The most bytes that are read of a log: 384 MiB.
pub(crate) const LOG_LIMIT: u64 = 402_653_184;

/// What is told where a log gives no answer. An `Err` is a status without a reply.
pub(crate) fn end_reply(alloc: Global, end: StreamEnd) -> Result<Reply, Status>
    ensures told { IfOk result (TellsEnd end) }
    ensures halts { IfErr result (HaltsEnd end) }
{
    match end {
        StreamEnd::Text(fault) => Ok(refused_reply(alloc, LogRefusal::Text(fault))?),
        StreamEnd::TooLong(read) => Ok(long_reply(alloc, true, read)?),
        StreamEnd::Fault => Err(Status::ReadFault { log: true }),
        StreamEnd::NoMemory => Err(Status::NoMemory),
        StreamEnd::Refused(refusal) => match refusal {
            Refusal::Wrong { entry, rule } => {
                Ok(refused_reply(alloc, LogRefusal::Wrong { entry, rule })?)
            }
            Refusal::Left { entry, step, left } => Ok(step_reply(alloc, entry, step, left)?),
            Refusal::NoMemory => Err(Status::NoMemory),
        },
    }
}

/// What is told of the answer of a log that passes.
fn answer_reply(alloc: Global, file: &Problem, answer: &Answer) -> Result<Reply, NoMemory>
    ensures status { IfOk result (λ r. r.status ≡ Status.Done) }
    ensures text { IfOk result (λ r. r.text ≡ report_text file.now answer.now) }
    ensures log { IfOk result (λ r. r.log ≡ None) }
{
    Ok(Reply {
        status: Status::Done,
        text: report(alloc, file, answer)?,
        log: None,
    })
}

/// Reads the log, and checks it as it is read. An `Err` is a status without a reply.
pub(crate) fn examine<L: Source>(
    alloc: Global,
    file: &Problem,
    log_in: &mut L,
) -> Result<Reply, Status>
    ensures count { L.faults log_in.old ≤ L.faults log_in.new }
    ensures told { IfOk result (λ r. LogTold check file.now r
        (channel (L.left log_in.old) (L.faults log_in.old))
        (channel (L.left log_in.new) (L.faults log_in.new))) }
    ensures halts { IfErr result (λ s. HaltsReading true log_limit s
        (channel (L.left log_in.old) (L.faults log_in.old))
        (channel (L.left log_in.new) (L.faults log_in.new))) }
{
    match check_from(alloc, file, log_in, LOG_LIMIT) {
        Ok(answer) => Ok(answer_reply(alloc, file, &answer)?),
        Err(end) => end_reply(alloc, end),
    }
}
