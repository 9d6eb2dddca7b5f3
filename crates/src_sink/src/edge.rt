//! The outside as std gives it: files, standard streams and the like. What they do is trusted.
ghost use Rattle.std.specs.Prelude.{◌≡◌, ◌<◌, ◌≤◌, ℕ, Bool, true, false, None, length, is_ok, is_none, is_some, IfOk, IfSome, IsTrue, IsErr, IsNone, OnErr, if◌then◌else◌};
ghost use Rattle.src_sink.specs.Outside.{counted, NeverFalls, Rose};

use crate::outside::{Failed, Sink, Source};
use std::io::{Read, Write};
use std::marker::Model;

/// A source over a reader of std, or over none. It tells nothing of its bytes.
#[derive(Debug, Drop)]
pub struct StdSource<R> {
    reader: Option<R>,
    faults: u64,
}

impl<R> Model for StdSource<R> {
    ghost use Rattle.std.specs.Prelude.{◌≤◌, is_none};
    ghost use Rattle.src_sink.specs.Edge.{Edge};
    ghost use Rattle.src_sink.specs.Outside.{most_counted};

    ghost Value = { Edge };

    ghost view = { λ s. record { missing = is_none s.reader; faults = s.faults } };

    ghost invariant = { λ s. s.faults ≤ most_counted };
}

impl<R: Read> StdSource<R> {
    /// A source each of whose reads is one `read` of `reader`.
    pub fn over(reader: R) -> StdSource<R>
        ensures { result ≡ record { missing = false; faults = 0 } }
    {
        StdSource {
            reader: Some(reader),
            faults: 0,
        }
    }

    /// A source that fails at every call, as for a file that cannot be opened.
    pub fn missing() -> StdSource<R>
        ensures { result ≡ record { missing = true; faults = 0 } }
    {
        StdSource {
            reader: None,
            faults: 0,
        }
    }
}

impl<R: Read> Source for StdSource<R> {
    ghost left = { λ _. None };

    ghost faults = { λ s. s.faults };

    fn read(&mut self, buf: &mut [u8]) -> Result<usize, Failed>
        ensures count { NeverFalls self.old.faults self.new.faults }
        ensures within { IfOk result (λ k. k ≤ length buf.new) }
        ensures rose { OnErr result (Rose self.old.faults self.new.faults) }

        ensures missing { IsTrue self.old.missing → IsErr result }
        ensures after { self.new
            ≡ record self.old
            { faults = if is_ok result then self.old.faults else counted self.old.faults } }
    {
        match read_once(&mut self.reader, buf) {
            Some(count) => Ok(count),
            None => {
                self.faults = self.faults.saturating_add(1);
                Err(Failed)
            }
        }
    }
}

/// One `read` of the reader, if there is one. None is an error.
fn read_once<R: Read>(reader: &mut Option<R>, buf: &mut [u8]) -> Option<usize>
    ensures within { IfSome result (λ k. k ≤ length buf.new) }
    ensures missing { IsNone reader.old → IsNone result }
    ensures stays { is_none reader.new ≡ is_none reader.old }
{
    match reader {
        Some(reader) => reader.read(buf).ok(),
        None => None,
    }
}

/// A sink over a writer of std, or over none. It tells nothing of its bytes.
#[derive(Debug, Drop)]
pub struct StdSink<W> {
    writer: Option<W>,
    faults: u64,
}

impl<W> Model for StdSink<W> {
    ghost use Rattle.std.specs.Prelude.{◌≤◌, is_none};
    ghost use Rattle.src_sink.specs.Edge.{Edge};
    ghost use Rattle.src_sink.specs.Outside.{most_counted};

    ghost Value = { Edge };

    ghost view = { λ s. record { missing = is_none s.writer; faults = s.faults } };

    ghost invariant = { λ s. s.faults ≤ most_counted };
}

impl<W: Write> StdSink<W> {
    /// A sink each of whose writes is one `write` of `writer`.
    pub fn over(writer: W) -> StdSink<W>
        ensures { result ≡ record { missing = false; faults = 0 } }
    {
        StdSink {
            writer: Some(writer),
            faults: 0,
        }
    }

    /// A sink that fails at every call, as for a file that cannot be made.
    pub fn missing() -> StdSink<W>
        ensures { result ≡ record { missing = true; faults = 0 } }
    {
        StdSink {
            writer: None,
            faults: 0,
        }
    }
}

impl<W: Write> Sink for StdSink<W> {
    ghost held = { λ _. None };

    ghost faults = { λ s. s.faults };

    /// Where the writer takes nothing of a piece that is not empty, this is a fault too.
    fn write(&mut self, bytes: &[u8]) -> Result<usize, Failed>
        ensures count { NeverFalls self.old.faults self.new.faults }
        ensures within { IfOk result (λ k. k ≤ length bytes.now) }
        ensures some { IfOk result (λ k. 0 < length bytes.now → 0 < k) }
        ensures rose { OnErr result (Rose self.old.faults self.new.faults) }

        ensures missing { IsTrue self.old.missing → IsErr result }
        ensures after { self.new
            ≡ record self.old
            { faults = if is_ok result then self.old.faults else counted self.old.faults } }
    {
        match write_once(&mut self.writer, bytes) {
            Some(count) => Ok(count),
            None => {
                self.faults = self.faults.saturating_add(1);
                Err(Failed)
            }
        }
    }
}

/// One `write` of the writer, if there is one. None is an error, or a writer that takes nothing.
fn write_once<W: Write>(writer: &mut Option<W>, bytes: &[u8]) -> Option<usize>
    ensures within { IfSome result (λ k. k ≤ length bytes.now) }
    ensures some { IfSome result (λ k. 0 < length bytes.now → 0 < k) }
    ensures missing { IsNone writer.old → IsNone result }
    ensures stays { is_none writer.new ≡ is_none writer.old }
{
    let count = match writer {
        Some(writer) => writer.write(bytes).ok()?,
        None => return None,
    };
    if count == 0 && !bytes.is_empty() {
        return None;
    }
    Some(count)
}
