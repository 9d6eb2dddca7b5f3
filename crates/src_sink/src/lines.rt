//! The lines of a source, one at a time.
ghost use Rattle.std.specs.Prelude.{◌≡◌, ◌-◌, ◌≤◌, ℕ, true, false, [], ◌++◌, ◌∷◌, length, drop, IfOk, IfErr, OnErr, is_err};
ghost use Rattle.src_sink.specs.Outside.{Rose, NeverFalls, Consumes, IsAtEnd, Keeps};
ghost use Rattle.src_sink.specs.Reading.{Gives, Stops};
ghost use Rattle.src_sink.specs.Intake.{reading, Refills, StopsRefill, GivesPart};

use crate::items::{Bytes, MOST_ITEMS, NoMemory};
use crate::outside::{Failed, Source};
use crate::pieces::place_of;
use crate::whole::{PIECE, ReadEnd};
use std::alloc::Global;
use std::marker::Model;
use std::mem;

/// How a line ended.
#[derive(Clone, Copy, Debug, PartialEq, Eq)]
pub enum LineEnd {
    /// Its line feed stood.
    Whole,
    /// The source ended without one, after at least one byte.
    Torn,
    /// There is no line: no bytes are to come.
    End,
}

/// A part of a source's bytes that was taken in one read, without those that were given.
#[derive(Debug, Drop)]
struct Piece {
    bytes: [u8; PIECE],
    start: usize,
    end: usize,
}

impl Model for Piece {
    ghost use Rattle.std.specs.Prelude.{◌≤◌, ◌-◌, ℕ, List, take, drop};

    ghost Value = { List ℕ };

    ghost view = { λ p. take (p.end - p.start) (drop p.start p.bytes) };

    ghost invariant = { λ p. (p.start ≤ p.end) × (p.end ≤ 4096) };
}

impl Piece {
    fn new() -> Piece
        ensures { result ≡ [] }
    {
        Piece {
            bytes: [0; PIECE],
            start: 0,
            end: 0,
        }
    }

    /// What is left of it.
    fn as_slice(&self) -> &[u8]
        ensures bytes { result.now ≡ self.now }
        ensures bound { length result.now ≤ PIECE }
    {
        &self.bytes[self.start..self.end]
    }

    /// Lets go the first so many bytes.
    fn advance(&mut self, count: usize)
        requires { count ≤ length self.old }
        ensures { self.new ≡ drop count self.old }
    {
        self.start += count;
    }

    /// The bytes of one read, in place of what is left.
    fn refill<S: Source>(&mut self, src: &mut S) -> Result<usize, Failed>
        ensures count { NeverFalls (S.faults src.old) (S.faults src.new) }

        ensures size { IfOk result (λ k. (k ≡ length self.new) × (k ≤ PIECE)) }
        ensures taken { IfOk result (λ k. Consumes (S.left src.old) (S.left src.new) self.new) }
        ensures end { IfOk result (λ k. k ≡ 0 → IsAtEnd (S.left src.new)) }

        ensures rose { OnErr result (Rose (S.faults src.old) (S.faults src.new)) }
        ensures kept { OnErr result (Keeps (S.left src.old) (S.left src.new)) }
        ensures none { OnErr result (self.new ≡ []) }
    {
        self.start = 0;
        self.end = 0;
        let count = src.read(&mut self.bytes)?;
        self.end = count;
        Ok(count)
    }
}

/// What was taken from a source.
#[derive(Debug, Drop)]
struct Intake {
    piece: Piece,
    taken: u64,
    limit: u64,
    ended: bool,
}

impl Intake {
    /// Takes the next piece, once the last one is given. Whether there was one.
    fn refill<S: Source>(&mut self, src: &mut S) -> Result<bool, ReadEnd>
        requires empty { self.old.piece ≡ [] }
        requires limit { self.old.limit ≤ MOST_ITEMS }
        requires within { self.old.taken ≤ self.old.limit }
        ensures count { S.faults src.old ≤ S.faults src.new }
        ensures ok { IfOk result
            (λ more. Refills more self.old self.new (S.left src.old) (S.left src.new)) }
        ensures err { IfErr result (λ e. StopsRefill e self.old self.new (S.left src.old)
            (S.left src.new) (S.faults src.old) (S.faults src.new)) }
    {
        if self.ended {
            return Ok(false);
        }
        let count = self.piece.refill(src)?;
        if count == 0 {
            self.ended = true;
            return Ok(false);
        }
        self.taken += count as u64;
        if self.taken > self.limit {
            return Err(ReadEnd::TooLong(self.taken));
        }
        Ok(true)
    }

    /// Appends what is left of the piece to `line`, up to a line feed, which goes with it. Whether
    /// it stood.
    fn give(&mut self, line: &mut Bytes) -> Result<bool, NoMemory>
        ensures ok { IfOk result (λ whole. GivesPart whole self.old self.new line.old line.new) }
        ensures err { OnErr result ((self.new ≡ self.old) × (line.new ≡ line.old)) }
    {
        let piece = self.piece.as_slice();
        match place_of(piece, b'\n') {
            Some(at) => {
                line.append(&piece[..at])?;
                self.piece.advance(at + 1);
                Ok(true)
            }
            None => {
                line.append(piece)?;
                let count = piece.len();
                self.piece.advance(count);
                Ok(false)
            }
        }
    }

    /// Appends the next line to `line`, and answers how it ended.
    fn next_line<S: Source>(&mut self, src: &mut S, line: &mut Bytes) -> Result<LineEnd, ReadEnd>
        requires empty { line.old ≡ [] }
        requires limit { self.old.limit ≤ MOST_ITEMS }
        requires within { self.old.taken ≤ self.old.limit }
        ensures count { S.faults src.old ≤ S.faults src.new }
        ensures ok { IfOk result (λ end. Gives end (reading self.old []) (reading self.new [])
            (S.left src.old) (S.left src.new) line.new) }
        ensures err { IfErr result (λ e. Stops e (reading self.old []) (reading self.new line.new)
            (S.left src.old) (S.left src.new) (S.faults src.old) (S.faults src.new)) }
    {
        loop {
            if self.give(line)? {
                return Ok(LineEnd::Whole);
            }
            if !self.refill(src)? {
                return Ok(if line.len() == 0 {
                    LineEnd::End
                } else {
                    LineEnd::Torn
                });
            }
        }
    }
}

/// The lines of a source, for which it keeps one piece of the source's bytes and one line.
#[derive(Debug, Drop)]
pub struct Lines {
    intake: Intake,
    line: Bytes,
    failed: bool,
}

impl Model for Lines {
    ghost use Rattle.std.specs.Prelude.{◌≡◌, ◌≤◌, ◌++◌, false, []};
    ghost use Rattle.src_sink.specs.Reading.{Reading};

    ghost Value = { Reading };

    ghost view = { λ s. record {
      kept = s.line ++ s.intake.piece;
      taken = s.intake.taken;
      limit = s.intake.limit;
      ended = s.intake.ended;
      failed = s.failed;
    } };

    ghost invariant = { λ s. (s.intake.limit ≤ 4294967294)
        × (s.failed ≡ false → (s.intake.taken ≤ s.intake.limit) × (s.line ≡ [])) };
}

impl Lines {
    /// Of a source of which no more than `limit` bytes are to be taken. No memory is taken yet.
    pub fn new(alloc: Global, limit: u64) -> Lines
        requires { limit ≤ MOST_ITEMS }
        ensures { result
            ≡ record { kept = []; taken = 0; limit = limit; ended = false; failed = false } }
    {
        Lines {
            intake: Intake {
                piece: Piece::new(),
                taken: 0,
                limit,
                ended: false,
            },
            line: Bytes::new(alloc),
            failed: false,
        }
    }

    /// Puts the next line, without its line feed, into `line` in place of what that held, and
    /// answers how it ended: `LineEnd::End` where there is none, and then `line` is empty. Each
    /// call is to be given the same source.
    ///
    /// `ReadEnd::TooLong` comes as soon as more than the limit were taken since `new`. After a
    /// `ReadEnd` `line` is as before, and no further call may follow.
    pub fn next<S: Source>(&mut self, src: &mut S, line: &mut Bytes) -> Result<LineEnd, ReadEnd>
        requires { self.old.failed ≡ false }
        ensures count { S.faults src.old ≤ S.faults src.new }
        ensures failed { self.new.failed ≡ is_err result }

        ensures ok { IfOk result
            (λ end. Gives end self.old self.new (S.left src.old) (S.left src.new) line.new) }

        ensures err { IfErr result (λ e. Stops e self.old self.new (S.left src.old) (S.left src.new)
            (S.faults src.old) (S.faults src.new)) }
        ensures as_before { OnErr result (line.new ≡ line.old) }
    {
        self.failed = true;
        let end = self.intake.next_line(src, &mut self.line)?;
        mem::swap(line, &mut self.line);
        self.line.clear();
        self.failed = false;
        Ok(end)
    }
}
