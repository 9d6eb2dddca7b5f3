//! The lines of entries.
ghost use Rattle.std.specs.Prelude.{◌≡◌, ◌++◌, IfOk, IfErr, OnOk};
ghost use Rattle.src_sink.specs.Texts.{line_text, words_text};
ghost use Rattle.word_lines.specs.Grammar.{Grammar, entry_words, is_last};
ghost use Rattle.word_lines.specs.Taking.{TakesEntry, ReadsWords, ReadsLine, RefusesLine};

use crate::fault::{LogEnd, LogKind, Stop};
use crate::words::{Words, has_empty_word};
use src_sink::{Bytes, NoMemory};
use std::alloc::Global;

/// An entry of a text: a line with a name and the parts that its forms ask for.
pub trait LineEntry: Sized + Drop {
    ghost grammar: { Grammar Self };

    /// The entry of this name, of which the parts stand first.
    fn take(alloc: Global, name: &[u8], words: &mut Words) -> Result<Self, Stop>
        ensures { TakesEntry grammar name.now words.old words.new result };

    /// Appends the words of its line.
    fn put(&self, into: &mut Bytes) -> Result<(), NoMemory>
        ensures { OnOk result (into.new ≡ into.old ++ words_text (entry_words grammar self.now)) };

    /// Whether it ends its text.
    fn is_end(&self) -> bool
        ensures { result ≡ is_last grammar self.now };
}

/// The entry of the words of a line.
fn line_entry<E: LineEntry>(alloc: Global, text: &[u8]) -> Result<E, Stop>
    ensures { ReadsWords E.grammar text.now result }
{
    if has_empty_word(text) {
        return Err(Stop::Fault(LogKind::BadLine));
    }
    let mut words = Words::of(text);
    let Some(name) = words.next() else {
        return Err(Stop::Fault(LogKind::BadLine));
    };
    let entry = E::take(alloc, name, &mut words)?;
    match words.next() {
        Some(_) => Err(Stop::Fault(LogKind::BadLine)),
        None => Ok(entry),
    }
}

/// The entry of a line of a text, given the line's number, its text without the line feed, whether
/// that line feed stood, and whether an `end` line stands before it. A fault names this number and
/// the first test that the line fails.
pub fn read_line<E: LineEntry>(
    alloc: Global,
    number: u32,
    text: &[u8],
    whole: bool,
    ended: bool,
) -> Result<E, LogEnd>
    ensures ok { IfOk result (ReadsLine E.grammar ended whole text.now) }
    ensures refused { IfErr result (RefusesLine E.grammar number ended whole text.now) }
{
    if ended || !whole {
        return Err(Stop::Fault(LogKind::BadLine).at(number));
    }
    match line_entry(alloc, text) {
        Ok(entry) => Ok(entry),
        Err(stop) => Err(stop.at(number)),
    }
}

/// Puts the line of an entry after a text, with its line feed.
pub fn print_line<E: LineEntry>(entry: &E, into: &mut Bytes) -> Result<(), NoMemory>
    ensures { OnOk result (into.new ≡ into.old ++ line_text (entry_words E.grammar entry.now)) }
{
    entry.put(into)?;
    into.push(b'\n')
}
