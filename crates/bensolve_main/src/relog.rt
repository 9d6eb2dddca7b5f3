//! The upgrade of a log.
ghost use Rattle.std.specs.Prelude.{◌≡◌, ◌≤◌, ℕ, true, List, IfOk, IfErr};
ghost use Rattle.vlp_problem.specs.declared.problem.Problem.{Problem as AProblem};
ghost use Rattle.deriv_log.specs.Formed.{IsLog};
ghost use Rattle.deriv_log.specs.Laws.{IsTextOf};
ghost use Rattle.deriv_log.specs.LogText.{log_text};
ghost use Rattle.cert_check.specs.Streams.{ReadsWhole, StreamEnds};
ghost use Rattle.cert_check.specs.Verdict.{Refuses};
ghost use Rattle.commands.specs.Tasks.Task.{relog};
ghost use Rattle.bensolve_main.specs.World.{channel};
ghost use Rattle.bensolve_main.specs.Reading.{log_limit};
ghost use Rattle.bensolve_main.specs.Relog.{Relogged};
ghost use Rattle.bensolve_main.specs.Stages.{HaltsReading, LogTold};

use crate::examine::{LOG_LIMIT, end_reply};
use cert_check::{Refusal, StreamEnd, check};
use commands::{Reply, Status};
use deriv_log::{Entries, LogEnd, read_log};
use log_upgrade::upgrade_text;
use src_sink::{Source, read_all};
use std::alloc::Global;
use vlp_problem::Problem;

/// The entries of the log that is left in a source. Its text is let go as soon as they are read.
fn read_entries<L: Source>(alloc: Global, log_in: &mut L) -> Result<Entries, StreamEnd>
    ensures count { L.faults log_in.old ≤ L.faults log_in.new }
    ensures ok { IfOk result (λ entries. (bytes : List ℕ)
        × ReadsWhole (L.left log_in.old) (L.left log_in.new) log_limit bytes
        × IsTextOf bytes entries) }
    ensures err { (file : AProblem) → IfErr result (λ e. StreamEnds e file log_limit
        (L.left log_in.old) (L.left log_in.new) (L.faults log_in.old) (L.faults log_in.new)) }
{
    let bytes = read_all(alloc, log_in, LOG_LIMIT)?;
    match read_log(alloc, bytes.as_slice()) {
        Ok(entries) => Ok(entries),
        Err(LogEnd::Fault(fault)) => Err(StreamEnd::Text(fault)),
        Err(LogEnd::NoMemory) => Err(StreamEnd::NoMemory),
    }
}

/// What is told of the entries of a log that passes: its upgrade.
fn upgrade_reply(alloc: Global, file: &Problem, entries: &Entries) -> Result<Reply, Refusal>
    requires { IsLog entries.now }
    ensures told { IfOk result (Relogged file.now (log_text entries.now)) }
    ensures refused { IfErr result (Refuses file.now entries.now) }
{
    check(alloc, file, entries)?;
    let text = upgrade_text(alloc, file, entries)?;
    Ok(Reply {
        status: Status::Done,
        text,
        log: None,
    })
}

/// What is told of the log that is left in a source, where it passes.
fn upgraded_log<L: Source>(
    alloc: Global,
    file: &Problem,
    log_in: &mut L,
) -> Result<Reply, StreamEnd>
    ensures count { L.faults log_in.old ≤ L.faults log_in.new }
    ensures told { IfOk result (λ r. LogTold relog file.now r
        (channel (L.left log_in.old) (L.faults log_in.old))
        (channel (L.left log_in.new) (L.faults log_in.new))) }
    ensures err { IfErr result (λ e. StreamEnds e file.now log_limit
        (L.left log_in.old) (L.left log_in.new) (L.faults log_in.old) (L.faults log_in.new)) }
{
    let entries = read_entries(alloc, log_in)?;
    Ok(upgrade_reply(alloc, file, &entries)?)
}

/// Reads the whole log, and writes its upgrade. An `Err` is a status without a reply.
///
/// The entries are kept, and the text of the upgrade beside them.
pub(crate) fn relog<L: Source>(
    alloc: Global,
    file: &Problem,
    log_in: &mut L,
) -> Result<Reply, Status>
    ensures count { L.faults log_in.old ≤ L.faults log_in.new }
    ensures told { IfOk result (λ r. LogTold relog file.now r
        (channel (L.left log_in.old) (L.faults log_in.old))
        (channel (L.left log_in.new) (L.faults log_in.new))) }
    ensures halts { IfErr result (λ s. HaltsReading true log_limit s
        (channel (L.left log_in.old) (L.faults log_in.old))
        (channel (L.left log_in.new) (L.faults log_in.new))) }
{
    match upgraded_log(alloc, file, log_in) {
        Ok(reply) => Ok(reply),
        Err(end) => end_reply(alloc, end),
    }
}
