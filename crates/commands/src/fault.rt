//! The line that tells a fault.
ghost use Rattle.std.specs.Prelude.{◌≡◌, IfOk};
ghost use Rattle.commands.specs.Replies.{fault_text, refusal_text};

use crate::cone::{cone_fault_line, empty_part_line};
use crate::licence::{licence_line, weigh_line};
use crate::lines::{
    columns_line, file_fault_line, log_fault_line, rep_fault_line, second_fault_line, sizes_line,
    too_long_line, weights_line, wrong_line,
};
use crate::status::{LogRefusal, Status};
use src_sink::{Bytes, NoMemory};
use std::alloc::Global;

/// The line of a refused log.
fn refusal_line(alloc: Global, why: LogRefusal) -> Result<Bytes, NoMemory>
    ensures { IfOk result (λ text. text ≡ refusal_text why) }
{
    match why {
        LogRefusal::Text(fault) => log_fault_line(alloc, fault),
        LogRefusal::Wrong { entry, rule } => wrong_line(alloc, entry, rule),
    }
}

/// The line that tells a status, or nothing where it has none: the answer tells itself, and without
/// a shape, without memory, and where a file fails nothing is told.
pub fn fault_line(alloc: Global, status: &Status) -> Result<Bytes, NoMemory>
    ensures { IfOk result (λ text. text ≡ fault_text status.now) }
{
    match status {
        Status::FileFault(fault) => file_fault_line(alloc, *fault),
        Status::ConeFault(fault) => cone_fault_line(alloc, fault),
        Status::Left(licence) => licence_line(alloc, licence),
        Status::Refused(why) => refusal_line(alloc, *why),
        Status::TooLong { log, read } => too_long_line(alloc, *log, *read),
        Status::Columns { asked, cols } => columns_line(alloc, *asked, *cols),
        Status::SecondFile(fault) => second_fault_line(alloc, *fault),
        Status::EmptyPart { second, u } => empty_part_line(alloc, *second, u.as_slice()),
        Status::Sizes { first, second } => sizes_line(alloc, *first, *second),
        Status::RepFault { line, kind } => rep_fault_line(alloc, *line, *kind),
        Status::WeighLeft { item, left } => weigh_line(alloc, *item, left),
        Status::Weights { given, objs } => weights_line(alloc, *given, *objs),
        Status::Done
        | Status::Words
        | Status::NoMemory
        | Status::ReadFault { .. }
        | Status::WriteFault { .. } => Ok(Bytes::new(alloc)),
    }
}
