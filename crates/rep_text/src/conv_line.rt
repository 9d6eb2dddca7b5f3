//! The lines of logs of conversions.
ghost use Rattle.std.specs.Prelude.{◌≡◌, ◌++◌, codes, OnOk};
ghost use Rattle.src_sink.specs.Texts.{words_text};
ghost use Rattle.rep_text.specs.ConvText.{conv_grammar};
ghost use Rattle.word_lines.specs.Grammar.{entry_words};
ghost use Rattle.word_lines.specs.Taking.{TakesEntry};

use crate::conv::ConvEntry;
use frac128::Frac;
use src_sink::{Bytes, NoMemory};
use std::alloc::Global;
use word_lines::{
    LineEntry, LogKind, LogPair, Stop, Words, is_word, put_natural, put_naturals, put_pairs,
    put_vector, take_natural, take_naturals, take_pairs, take_vector,
};

fn take_conv(words: &mut Words) -> Result<ConvEntry, Stop>
    ensures { TakesEntry conv_grammar (codes "conv") words.old words.new result }
{
    Ok(ConvEntry::Conv(take_natural(words)?))
}

fn take_line(alloc: Global, words: &mut Words) -> Result<ConvEntry, Stop>
    ensures { TakesEntry conv_grammar (codes "line") words.old words.new result }
{
    let d = take_vector(alloc, words)?;
    Ok(ConvEntry::Line { d })
}

fn take_start(alloc: Global, words: &mut Words) -> Result<ConvEntry, Stop>
    ensures { TakesEntry conv_grammar (codes "start") words.old words.new result }
{
    let rows = take_naturals(alloc, words)?;
    let gens = take_vector(alloc, words)?;
    Ok(ConvEntry::Start { rows, gens })
}

fn take_add(alloc: Global, words: &mut Words) -> Result<ConvEntry, Stop>
    ensures { TakesEntry conv_grammar (codes "add") words.old words.new result }
{
    let row = take_natural(words)?;
    let pairs = take_pairs(alloc, words)?;
    Ok(ConvEntry::Add { row, pairs })
}

/// The entry of this name, of which the parts stand first.
fn take_entry(alloc: Global, name: &[u8], words: &mut Words) -> Result<ConvEntry, Stop>
    ensures { TakesEntry conv_grammar name.now words.old words.new result }
{
    if is_word(name, b"conv") {
        take_conv(words)
    } else if is_word(name, b"line") {
        take_line(alloc, words)
    } else if is_word(name, b"start") {
        take_start(alloc, words)
    } else if is_word(name, b"add") {
        take_add(alloc, words)
    } else if is_word(name, b"end") {
        Ok(ConvEntry::End)
    } else {
        Err(Stop::Fault(LogKind::BadLine))
    }
}

fn put_conv(number: u32, into: &mut Bytes) -> Result<(), NoMemory>
    ensures { OnOk result (into.new ≡ into.old
        ++ words_text (entry_words conv_grammar (ConvEntry.Conv number))) }
{
    into.append(b"conv")?;
    put_natural(number, into)?;
    Ok(())
}

fn put_line(d: &[Frac], into: &mut Bytes) -> Result<(), NoMemory>
    ensures { OnOk result (into.new ≡ into.old
        ++ words_text (entry_words conv_grammar (ConvEntry.Line d.now))) }
{
    into.append(b"line")?;
    put_vector(d, into)?;
    Ok(())
}

fn put_start(rows: &[u32], gens: &[Frac], into: &mut Bytes) -> Result<(), NoMemory>
    ensures { OnOk result (into.new ≡ into.old
        ++ words_text (entry_words conv_grammar (ConvEntry.Start rows.now gens.now))) }
{
    into.append(b"start")?;
    put_naturals(rows, into)?;
    put_vector(gens, into)?;
    Ok(())
}

fn put_add(row: u32, pairs: &[LogPair], into: &mut Bytes) -> Result<(), NoMemory>
    ensures { OnOk result (into.new ≡ into.old
        ++ words_text (entry_words conv_grammar (ConvEntry.Add row pairs.now))) }
{
    into.append(b"add")?;
    put_natural(row, into)?;
    put_pairs(pairs, into)?;
    Ok(())
}

/// Appends the words of an entry's line.
fn put_entry(entry: &ConvEntry, into: &mut Bytes) -> Result<(), NoMemory>
    ensures { OnOk result (into.new ≡ into.old ++ words_text (entry_words conv_grammar entry.now)) }
{
    match entry {
        ConvEntry::Conv(number) => put_conv(*number, into),
        ConvEntry::Line { d } => put_line(d.as_slice(), into),
        ConvEntry::Start { rows, gens } => put_start(rows.as_slice(), gens.as_slice(), into),
        ConvEntry::Add { row, pairs } => put_add(*row, pairs.as_slice(), into),
        ConvEntry::End => into.append(b"end"),
    }
}

impl LineEntry for ConvEntry {
    ghost grammar = { conv_grammar };

    fn take(alloc: Global, name: &[u8], words: &mut Words) -> Result<ConvEntry, Stop> {
        take_entry(alloc, name, words)
    }

    fn put(&self, into: &mut Bytes) -> Result<(), NoMemory> {
        put_entry(self, into)
    }

    fn is_end(&self) -> bool {
        matches!(self, ConvEntry::End)
    }
}
