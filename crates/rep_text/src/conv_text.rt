//! The texts of logs of conversions.
ghost use Rattle.std.specs.Prelude.{◌≡◌, ◌≤◌, length, IfOk, IfErr};
ghost use Rattle.rep_text.specs.ConvText.{conv_grammar};
ghost use Rattle.word_lines.specs.Grammar.{IsTextOf, entries_text};
ghost use Rattle.word_lines.specs.Taking.{RefusesText};

use crate::conv::ConvLog;
use src_sink::{Bytes, MOST_ITEMS, NoMemory};
use std::alloc::Global;
use word_lines::{LogEnd, print_entries, read_entries};

/// The entries of the log of a conversion with this text, or its first fault. Lines are read one at
/// a time, up to the first that has a fault.
pub fn read_conv(alloc: Global, bytes: &[u8]) -> Result<ConvLog, LogEnd>
    requires { length bytes.now ≤ MOST_ITEMS }
    ensures ok { IfOk result (IsTextOf conv_grammar bytes.now) }
    ensures refused { IfErr result (RefusesText conv_grammar bytes.now) }
{
    read_entries(alloc, bytes)
}

/// The text of the log of a conversion: a line for each entry.
pub fn print_conv(alloc: Global, log: &ConvLog) -> Result<Bytes, NoMemory>
    ensures { IfOk result (λ text. text ≡ entries_text conv_grammar log.now) }
{
    print_entries(alloc, log)
}
