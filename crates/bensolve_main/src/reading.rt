//! Reading a problem or a representation: the first text of a command, or its second.
ghost use Rattle.std.specs.Prelude.{◌≡◌, ◌≤◌, false, IfOk, IfErr};
ghost use Rattle.cert_check.specs.Streams.{ReadsWhole};
ghost use Rattle.bensolve_main.specs.World.{channel};
ghost use Rattle.bensolve_main.specs.Reading.{GoodFile, GoodRep};
ghost use Rattle.bensolve_main.specs.Stages.{EndsReading, EndsRep, EndsText, file_status};
ghost use Rattle.commands.specs.Replies.{TellsStatus};

use commands::{Reply, Status, fault_reply};
use rep_text::{Rep, RepEnd, read_rep};
use src_sink::{Bytes, NoMemory, ReadEnd, Source, read_all};
use std::alloc::Global;
use vlp_problem::Problem;
use vlp_reader::{FileFault, VlpEnd, read_vlp};
use word_lines::LogKind;

/// The most bytes that are read of a problem or of a representation: 16 MiB.
const PROBLEM_LIMIT: u64 = 16_777_216;

/// Why a text gives nothing: what is replied of it, or a status without a reply.
#[derive(Debug, Drop)]
pub(crate) enum TextEnd {
    Told(Reply),
    Halted(Status),
}

impl From<NoMemory> for TextEnd {
    ghost use Rattle.std.specs.Prelude.{◌≡◌};
    ghost use Rattle.bensolve_main.specs.declared.reading.TextEnd.TheVariants.{Halted};
    ghost use Rattle.commands.specs.declared.status.Status.TheVariants.{NoMemory};

    ghost from_gives = { λ _ e. e ≡ Halted NoMemory };

    fn from(_e: NoMemory) -> TextEnd {
        TextEnd::Halted(Status::NoMemory)
    }
}

/// The reply at an end, or the status without one.
pub(crate) fn reply_at(end: TextEnd) -> Result<Reply, Status>
    ensures told { IfOk result (λ r. end ≡ TextEnd.Told r) }
    ensures halts { IfErr result (λ s. end ≡ TextEnd.Halted s) }
{
    match end {
        TextEnd::Told(reply) => Ok(reply),
        TextEnd::Halted(status) => Err(status),
    }
}

/// The status of a first or of a second problem that is refused.
fn file_status(second: bool, fault: FileFault) -> Status
    ensures { result ≡ file_status second fault }
{
    if second {
        Status::SecondFile(fault)
    } else {
        Status::FileFault(fault)
    }
}

/// What is told of a problem's text that has a fault.
fn fault_told(alloc: Global, second: bool, fault: FileFault) -> Result<Reply, NoMemory>
    ensures { IfOk result (TellsStatus (file_status second fault)) }
{
    let status = file_status(second, fault);
    fault_reply(alloc, status)
}

/// What is told of a representation's text that has a fault.
fn rep_fault_told(alloc: Global, line: u32, kind: LogKind) -> Result<Reply, NoMemory>
    ensures { IfOk result (TellsStatus (Status.RepFault line kind)) }
{
    fault_reply(alloc, Status::RepFault { line, kind })
}

/// What is told of a source with more bytes than its limit: the first, or the second.
pub(crate) fn long_reply(alloc: Global, log: bool, read: u64) -> Result<Reply, NoMemory>
    ensures { IfOk result (TellsStatus (Status.TooLong log read)) }
{
    fault_reply(alloc, Status::TooLong { log, read })
}

/// Reads the bytes of a text, the first or the second.
pub(crate) fn read_text<S: Source>(
    alloc: Global,
    second: bool,
    limit: u64,
    source: &mut S,
) -> Result<Bytes, TextEnd>
    ensures count { S.faults source.old ≤ S.faults source.new }
    ensures bytes { IfOk result (ReadsWhole (S.left source.old) (S.left source.new) limit) }
    ensures end { IfErr result (λ end. EndsText second limit end
        (channel (S.left source.old) (S.faults source.old))
        (channel (S.left source.new) (S.faults source.new))) }
{
    match read_all(alloc, source, limit) {
        Ok(bytes) => Ok(bytes),
        Err(ReadEnd::TooLong(read)) => Err(TextEnd::Told(long_reply(alloc, second, read)?)),
        Err(ReadEnd::Fault) => Err(TextEnd::Halted(Status::ReadFault { log: second })),
        Err(ReadEnd::NoMemory) => Err(TextEnd::Halted(Status::NoMemory)),
    }
}

/// Reads a problem, the first or the second.
pub(crate) fn read_problem<S: Source>(
    alloc: Global,
    second: bool,
    source: &mut S,
) -> Result<Problem, TextEnd>
    ensures count { S.faults source.old ≤ S.faults source.new }
    ensures file { IfOk result (λ file. GoodFile file
        (channel (S.left source.old) (S.faults source.old))
        (channel (S.left source.new) (S.faults source.new))) }
    ensures end { IfErr result (λ end. EndsReading second end
        (channel (S.left source.old) (S.faults source.old))
        (channel (S.left source.new) (S.faults source.new))) }
{
    let bytes = read_text(alloc, second, PROBLEM_LIMIT, source)?;
    match read_vlp(alloc, bytes.as_slice()) {
        Ok(file) => Ok(file),
        Err(VlpEnd::Fault(fault)) => Err(TextEnd::Told(fault_told(alloc, second, fault)?)),
        Err(VlpEnd::NoMemory) => Err(TextEnd::Halted(Status::NoMemory)),
    }
}

/// Reads a representation.
pub(crate) fn read_representation<S: Source>(alloc: Global, source: &mut S) -> Result<Rep, TextEnd>
    ensures count { S.faults source.old ≤ S.faults source.new }
    ensures rep { IfOk result (λ rep. GoodRep rep
        (channel (S.left source.old) (S.faults source.old))
        (channel (S.left source.new) (S.faults source.new))) }
    ensures end { IfErr result (λ end. EndsRep end
        (channel (S.left source.old) (S.faults source.old))
        (channel (S.left source.new) (S.faults source.new))) }
{
    let bytes = read_text(alloc, false, PROBLEM_LIMIT, source)?;
    match read_rep(alloc, bytes.as_slice()) {
        Ok(rep) => Ok(rep),
        Err(RepEnd::Fault { line, kind }) => {
            Err(TextEnd::Told(rep_fault_told(alloc, line, kind)?))
        }
        Err(RepEnd::NoMemory) => Err(TextEnd::Halted(Status::NoMemory)),
    }
}
