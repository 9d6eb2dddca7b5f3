//! Reading a source to its end, and writing a whole piece.
ghost use Rattle.std.specs.Prelude.{◌≡◌, ◌<◌, ◌≤◌, ℕ, List, length, take, IfOk, IfErr, OnOk, OnErr};
ghost use Rattle.src_sink.specs.Outside.{Rose, NeverFalls, Consumes, Appends, IsAtEnd};
ghost use Rattle.src_sink.specs.Ends.{Explains};

use crate::items::{Bytes, NoMemory};
use crate::outside::{Failed, Sink, Source};
use std::alloc::Global;
use thiserror::Error;

/// How many bytes are asked for at a time.
pub const PIECE: usize = 4096;

/// Why `read_all` gives no bytes.
#[derive(Clone, Copy, Debug, Error, PartialEq, Eq)]
pub enum ReadEnd {
    /// The source failed.
    #[error("the source failed")]
    Fault,
    /// More bytes than the limit were taken, and so many.
    #[error("the source has more bytes than the limit, {0} of them were taken")]
    TooLong(u64),
    /// There was no memory for the bytes.
    #[error("there is no memory for the bytes of the source")]
    NoMemory,
}

impl From<Failed> for ReadEnd {
    ghost use Rattle.std.specs.Prelude.{◌≡◌};
    ghost use Rattle.src_sink.specs.declared.whole.ReadEnd.TheVariants.{Fault};

    ghost from_gives = { λ _ e. e ≡ Fault };

    fn from(_e: Failed) -> ReadEnd {
        ReadEnd::Fault
    }
}

impl From<NoMemory> for ReadEnd {
    ghost use Rattle.std.specs.Prelude.{◌≡◌};
    ghost use Rattle.src_sink.specs.declared.whole.ReadEnd.TheVariants.{NoMemory};

    ghost from_gives = { λ _ e. e ≡ NoMemory };

    fn from(_e: NoMemory) -> ReadEnd {
        ReadEnd::NoMemory
    }
}

/// The sink failed, after a front of the bytes was written.
#[derive(Clone, Copy, Debug, Error, PartialEq, Eq)]
#[error("the sink failed after {sent} bytes")]
pub struct WriteFault {
    /// How many bytes were written.
    pub sent: u64,
}

/// Reads until the end of input, and gives all bytes that were left.
///
/// `ReadEnd::TooLong` comes as soon as more than `limit` bytes were taken.
pub fn read_all<S: Source>(alloc: Global, src: &mut S, limit: u64) -> Result<Bytes, ReadEnd>
    ensures count { NeverFalls (S.faults src.old) (S.faults src.new) }

    ensures all { IfOk result (λ bytes. Consumes (S.left src.old) (S.left src.new) bytes) }
    ensures end { OnOk result (IsAtEnd (S.left src.new)) }
    ensures within { IfOk result (λ bytes. length bytes ≤ limit) }

    ensures err { IfErr result (λ e. Explains e limit (S.left src.old) (S.left src.new)
        (S.faults src.old) (S.faults src.new)) }
{
    let mut bytes = Bytes::new(alloc);
    let mut piece = [0; PIECE];
    loop {
        let count = src.read(&mut piece)?;
        if count == 0 {
            return Ok(bytes);
        }
        let taken = bytes.len() as u64 + count as u64;
        if taken > limit {
            return Err(ReadEnd::TooLong(taken));
        }
        bytes.append(&piece[..count])?;
    }
}

/// Writes all bytes, a piece in each turn.
pub fn write_all<K: Sink>(sink: &mut K, bytes: &[u8]) -> Result<(), WriteFault>
    ensures count { K.faults sink.old ≤ K.faults sink.new }

    ensures all { OnOk result (Appends (K.held sink.old) (K.held sink.new) bytes.now) }

    ensures rose { OnErr result (Rose (K.faults sink.old) (K.faults sink.new)) }
    ensures within { IfErr result (λ e. e.sent < length bytes.now) }
    ensures front { IfErr result
        (λ e. Appends (K.held sink.old) (K.held sink.new) (take e.sent bytes.now)) }
{
    let mut sent = 0;
    while sent < bytes.len() {
        match sink.write(&bytes[sent..]) {
            Ok(count) => sent += count,
            Err(Failed) => return Err(WriteFault { sent: sent as u64 }),
        }
    }
    Ok(())
}
