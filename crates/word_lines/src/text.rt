//! Texts of entries.
ghost use Rattle.std.specs.Prelude.{◌≡◌, ◌≤◌, length, IfOk, IfErr};
ghost use Rattle.word_lines.specs.Grammar.{IsTextOf, entries_text};
ghost use Rattle.word_lines.specs.Taking.{RefusesText, text_after};

use crate::fault::{LogEnd, LogFault, LogKind};
use crate::line::{LineEntry, print_line, read_line};
use src_sink::{Bytes, Items, MOST_ITEMS, NoMemory, first_piece};
use std::alloc::Global;

/// What stands after a line, where its line feed stood; else nothing.
pub fn text_after(after: Option<&[u8]>) -> &[u8]
    ensures { result.now ≡ text_after after.entry }
{
    match after {
        Some(rest) => rest,
        None => &[],
    }
}

/// The entries of this text, or its first fault. Lines are read one at a time, up to the first that
/// has a fault.
pub fn read_entries<E: LineEntry>(alloc: Global, bytes: &[u8]) -> Result<Items<E>, LogEnd>
    requires { length bytes.now ≤ MOST_ITEMS }
    ensures ok { IfOk result (IsTextOf E.grammar bytes.now) }
    ensures refused { IfErr result (RefusesText E.grammar bytes.now) }
{
    let mut entries = Items::new(alloc);
    let mut number = 0;
    let mut ended = false;
    let mut rest = bytes;
    while !rest.is_empty() {
        let (line, after) = first_piece(rest, b'\n');
        number += 1;
        let entry: E = read_line(alloc, number, line, after.is_some(), ended)?;
        ended = entry.is_end();
        entries.push(entry)?;
        rest = text_after(after);
    }
    if ended {
        Ok(entries)
    } else {
        Err(LogEnd::Fault(LogFault {
            line: number + 1,
            kind: LogKind::NoEnd,
        }))
    }
}

/// The text of some entries: a line for each.
pub fn print_entries<E: LineEntry>(alloc: Global, entries: &Items<E>) -> Result<Bytes, NoMemory>
    ensures { IfOk result (λ text. text ≡ entries_text E.grammar entries.now) }
{
    let mut text = Bytes::new(alloc);
    for entry in entries.as_slice() {
        print_line(entry, &mut text)?;
    }
    Ok(text)
}
