//! The reply of a conversion.
ghost use Rattle.std.specs.Prelude.{◌≡◌, IfOk};
ghost use Rattle.rep_convert.specs.Standing.{IsConversion};
ghost use Rattle.replies.specs.Turning.{FacetsVerdict, Turned, TurningStopped, TurnVerdict, Turns, VerticesVerdict, conv_log_for};
ghost use Rattle.rep_text.specs.declared.rep.Rep.{Rep as ARep};

use commands::{Reply, Status, fault_reply};
use rep_convert::{ConvFault, Converted, convert};
use rep_text::{ConvLog, Rep, print_conv, print_rep};
use src_sink::{Bytes, NoMemory};
use std::alloc::Global;
use word_lines::LogKind;

/// The text of a log, where one is wanted.
fn log_text(alloc: Global, log: &ConvLog, logs: bool) -> Result<Option<Bytes>, NoMemory>
    ensures { IfOk result (λ text. text ≡ conv_log_for logs log.now) }
{
    if logs {
        let text = print_conv(alloc, log)?;
        Ok(Some(text))
    } else {
        Ok(None)
    }
}

/// The reply of what was converted, with its log or without.
fn turned_reply(alloc: Global, converted: &Converted, logs: bool) -> Result<Reply, NoMemory>
    ensures { (rep : ARep) → IsConversion rep converted.now → IfOk result (Turned logs rep) }
{
    Ok(Reply {
        status: Status::Done,
        text: print_rep(alloc, &converted.rep)?,
        log: log_text(alloc, &converted.log, logs)?,
    })
}

/// Converts a representation of the wanted kind, or tells why that was given up.
fn conversion_reply(alloc: Global, rep: &Rep, logs: bool) -> Result<Reply, NoMemory>
    ensures { IfOk result (Turns rep.now.gens logs rep.now) }
{
    match convert(alloc, rep) {
        Ok(converted) => turned_reply(alloc, &converted, logs),
        Err(ConvFault::Left(licence)) => fault_reply(alloc, Status::Left(licence)),
        Err(ConvFault::NoMemory) => Err(NoMemory),
    }
}

/// Converts a representation, or tells that it is of the other kind than the wanted one.
fn turn_reply(alloc: Global, gens: bool, rep: &Rep, logs: bool) -> Result<Reply, NoMemory>
    ensures { IfOk result (TurnVerdict gens logs rep.now) }
{
    if rep.gens == gens {
        conversion_reply(alloc, rep, logs)
    } else {
        let kind = LogKind::BadLine;
        fault_reply(alloc, Status::RepFault { line: 1, kind })
    }
}

/// Turns inequalities and equations into points, directions and lines (vertex enumeration).
pub fn vertices_reply(alloc: Global, rep: &Rep, logs: bool) -> Result<Reply, NoMemory>
    ensures { IfOk result (VerticesVerdict logs rep.now) }
{
    turn_reply(alloc, false, rep, logs)
}

/// Turns points, directions and lines into inequalities and equations (facet enumeration).
pub fn facets_reply(alloc: Global, rep: &Rep, logs: bool) -> Result<Reply, NoMemory>
    ensures { IfOk result (FacetsVerdict logs rep.now) }
{
    turn_reply(alloc, true, rep, logs)
}
