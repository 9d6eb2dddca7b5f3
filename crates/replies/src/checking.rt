//! The reply of the check of a conversion's log.
ghost use Rattle.std.specs.Prelude.{◌≡◌, ◌≤◌, length, IfOk, IfErr};
ghost use Rattle.word_lines.specs.Grammar.{IsTextOf, IsWhole, entries_text};
ghost use Rattle.word_lines.specs.Taking.{RefusesText};
ghost use Rattle.rep_text.specs.ConvText.{conv_grammar};
ghost use Rattle.rep_conv.specs.Checked.{IsRefusal};
ghost use Rattle.replies.specs.Checking.{ReconvVerdict, RefusesLog};

use commands::{LogRefusal, Reply, Status, refused_reply, step_reply};
use rep_conv::{ConvRefusal, check_conv};
use rep_text::{ConvLog, Rep, print_rep, read_conv};
use src_sink::{Bytes, NoMemory};
use std::alloc::Global;
use word_lines::LogEnd;

/// The log of a text, which is let go as soon as it is read.
fn read_log(alloc: Global, bytes: Bytes) -> Result<ConvLog, LogEnd>
    ensures ok { IfOk result (IsTextOf conv_grammar bytes) }
    ensures refused { IfErr result (RefusesText conv_grammar bytes) }
{
    read_conv(alloc, bytes.as_slice())
}

/// The number of an entry of a log, which has less than 2^32 of them.
fn number_in(log: &ConvLog, entry: usize) -> u32
    requires { entry ≤ length log.now }
    ensures { result ≡ entry }
{
    let count = log.len();
    prove!(entry <= count);
    entry as u32
}

/// The reply where the check of a log refuses it.
fn refusal_reply(
    alloc: Global,
    rep: &Rep,
    log: &ConvLog,
    refusal: ConvRefusal,
) -> Result<Reply, NoMemory>
    requires whole { IsWhole conv_grammar log.now }
    requires refusal { IsRefusal rep.now log.now refusal }
    ensures { IfOk result (RefusesLog rep.now (entries_text conv_grammar log.now)) }
{
    match refusal {
        ConvRefusal::Wrong { entry, rule } => {
            let entry = number_in(log, entry);
            refused_reply(alloc, LogRefusal::Wrong { entry, rule })
        }
        ConvRefusal::Left { entry, step, left } => {
            let entry = number_in(log, entry);
            step_reply(alloc, entry, step, left)
        }
        ConvRefusal::NoMemory => Err(NoMemory),
    }
}

/// The reply of the check of a log.
fn checked_reply(alloc: Global, rep: &Rep, log: &ConvLog) -> Result<Reply, NoMemory>
    requires { IsWhole conv_grammar log.now }
    ensures { IfOk result (ReconvVerdict rep.now (entries_text conv_grammar log.now)) }
{
    match check_conv(alloc, rep, log) {
        Ok(other) => Ok(Reply {
            status: Status::Done,
            text: print_rep(alloc, &other)?,
            log: None,
        }),
        Err(refusal) => refusal_reply(alloc, rep, log, refusal),
    }
}

/// Checks the log of a conversion, which has this text, and writes the representation that it
/// gives.
///
/// The entries of the log are kept, and no text beside them.
pub fn reconv_reply(alloc: Global, rep: &Rep, bytes: Bytes) -> Result<Reply, NoMemory>
    ensures { IfOk result (ReconvVerdict rep.now bytes) }
{
    match read_log(alloc, bytes) {
        Ok(log) => checked_reply(alloc, rep, &log),
        Err(LogEnd::Fault(fault)) => refused_reply(alloc, LogRefusal::Text(fault)),
        Err(LogEnd::NoMemory) => Err(NoMemory),
    }
}
