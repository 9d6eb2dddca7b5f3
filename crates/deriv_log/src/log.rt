//! The reader of logs.
ghost use Rattle.std.specs.Prelude.{◌≤◌, length, IfOk, IfErr};
ghost use Rattle.deriv_log.specs.Laws.{IsTextOf, OneReading};
ghost use Rattle.deriv_log.specs.Taking.{RefusesText};

use crate::entry::Entries;
use src_sink::MOST_ITEMS;
use std::alloc::Global;
use word_lines::{LogEnd, read_entries};

/// The entries of the log with this text, or its first fault. Lines are read one at a time, up to
/// the first that has a fault.
pub fn read_log(alloc: Global, bytes: &[u8]) -> Result<Entries, LogEnd>
    requires { length bytes.now ≤ MOST_ITEMS }
    ensures ok { IfOk result (IsTextOf bytes.now) }
    ensures refused { IfErr result (RefusesText bytes.now) }
{
    read_entries(alloc, bytes)
}

/// Each list of bytes is the text of a log or has a first fault, never both, and but one of either.
pub fn one_reading()
    ensures { OneReading }
{}
