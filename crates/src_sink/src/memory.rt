//! A source and a sink in memory, which fail where they are told to.
ghost use Rattle.std.specs.Prelude.{◌≡◌, ◌-◌, ◌<◌, ◌≤◌, ◌↔◌, ◌⊎◌, ℕ, List, Some, [], ◌++◌, length, take, min, Contains, is_ok, IsErr, IfOk, OnErr, if◌then◌else◌};
ghost use Rattle.src_sink.specs.Outside.{counted, NeverFalls, Rose};
ghost use Rattle.src_sink.specs.Memory.{IsFullFor};

use crate::items::{Bytes, Items, MOST_ITEMS, NoMemory};
use crate::outside::{Failed, Sink, Source};
use std::alloc::Global;
use std::marker::Model;

/// A source that gives the bytes of a list, some at a time.
#[derive(Debug, Drop)]
pub struct MemSource {
    contents: Bytes,
    taken: usize,
    most: usize,
    fails: Items<u64>,
    calls: u64,
    faults: u64,
}

impl Model for MemSource {
    ghost use Rattle.std.specs.Prelude.{◌<◌, ◌≤◌, length, drop};
    ghost use Rattle.src_sink.specs.Memory.{Supply};

    ghost Value = { Supply };

    ghost view = { λ s. record {
      left = drop s.taken s.contents;
      most = s.most;
      fails = s.fails;
      calls = s.calls;
      faults = s.faults;
    } };

    ghost invariant = { λ s. (s.taken ≤ length s.contents) × (0 < s.most) };
}

impl MemSource {
    /// A source of `contents` that gives at most `most` bytes a call, and of whose calls exactly
    /// those fail whose numbers, counted from 1, stand in `fails`.
    pub fn new(contents: Bytes, most: usize, fails: Items<u64>) -> MemSource
        requires { 0 < most }
        ensures { result
            ≡ record { left = contents; most = most; fails = fails; calls = 0; faults = 0 } }
    {
        MemSource {
            contents,
            taken: 0,
            most,
            fails,
            calls: 0,
            faults: 0,
        }
    }
}

impl Source for MemSource {
    ghost left = { λ s. Some s.left };

    ghost faults = { λ s. s.faults };

    fn read(&mut self, buf: &mut [u8]) -> Result<usize, Failed>
        ensures count { NeverFalls self.old.faults self.new.faults }

        ensures within { IfOk result (λ k. k ≤ length buf.new) }
        ensures taken { IfOk result (λ k. self.old.left ≡ take k buf.new ++ self.new.left) }
        ensures end { IfOk result (λ k. k ≡ 0 → 0 < length buf.old → self.new.left ≡ []) }

        ensures rose { OnErr result (Rose self.old.faults self.new.faults) }
        ensures kept { OnErr result (self.new.left ≡ self.old.left) }

        // Which calls fail, and how many bytes the others give.
        ensures fails { IsErr result ↔ Contains self.old.fails (counted self.old.calls) }
        ensures exact { IfOk result
            (λ k. k ≡ min (min (length self.old.left) self.old.most) (length buf.old)) }
        ensures after { self.new
            ≡ record self.old {
              left = self.new.left;
              calls = counted self.old.calls;
              faults = if is_ok result then self.old.faults else counted self.old.faults;
            } }
    {
        self.calls = self.calls.saturating_add(1);
        if self.fails.as_slice().contains(&self.calls) {
            self.faults = self.faults.saturating_add(1);
            return Err(Failed);
        }
        let rest = &self.contents.as_slice()[self.taken..];
        let count = rest.len().min(self.most).min(buf.len());
        buf[..count].copy_from_slice(&rest[..count]);
        self.taken += count;
        Ok(count)
    }
}

/// A sink that keeps its bytes in memory taken at once.
#[derive(Debug, Drop)]
pub struct MemSink {
    held: Vec<u8>,
    room: usize,
    most: usize,
    fails: Items<u64>,
    calls: u64,
    faults: u64,
}

impl Model for MemSink {
    ghost use Rattle.std.specs.Prelude.{◌<◌, ◌≤◌, vec_len, vec_capacity};
    ghost use Rattle.src_sink.specs.Memory.{Store};

    ghost Value = { Store };

    ghost view = { λ s. record {
      held = s.held.items;
      room = s.room;
      most = s.most;
      fails = s.fails;
      calls = s.calls;
      faults = s.faults;
    } };

    ghost invariant = { λ s. (vec_len s.held ≤ s.room) × (s.room ≤ vec_capacity s.held)
        × (0 < s.most) };
}

impl MemSink {
    /// A sink that holds nothing yet and takes at most `most` bytes a call and `room` bytes in all.
    /// Its calls whose numbers, counted from 1, stand in `fails` fail.
    pub fn new(
        alloc: Global,
        room: usize,
        most: usize,
        fails: Items<u64>,
    ) -> Result<MemSink, NoMemory>
        requires room { room ≤ MOST_ITEMS }
        requires most { 0 < most }
        ensures { IfOk result (λ sink. sink
            ≡ record
            { held = []; room = room; most = most; fails = fails; calls = 0; faults = 0 }) }
    {
        Ok(MemSink {
            held: Vec::with_capacity(alloc, room)?,
            room,
            most,
            fails,
            calls: 0,
            faults: 0,
        })
    }

    /// What the sink holds.
    pub fn contents(&self) -> &[u8]
        ensures { result.now ≡ self.now.held }
    {
        self.held.as_slice()
    }
}

impl Sink for MemSink {
    ghost held = { λ s. Some s.held };

    ghost faults = { λ s. s.faults };

    fn write(&mut self, bytes: &[u8]) -> Result<usize, Failed>
        ensures count { NeverFalls self.old.faults self.new.faults }

        ensures within { IfOk result (λ k. k ≤ length bytes.now) }
        ensures some { IfOk result (λ k. 0 < length bytes.now → 0 < k) }
        ensures appended { IfOk result (λ k. self.new.held ≡ self.old.held ++ take k bytes.now) }

        ensures rose { OnErr result (Rose self.old.faults self.new.faults) }
        ensures kept { OnErr result (self.new.held ≡ self.old.held) }

        // Which calls fail, and how many bytes the others take.
        ensures fails { IsErr result
            ↔ (Contains self.old.fails (counted self.old.calls) ⊎ IsFullFor self.old bytes.now) }
        ensures exact { IfOk result (λ k. k
            ≡ min (min (length bytes.now) self.old.most) (self.old.room - length self.old.held)) }
        ensures after { self.new
            ≡ record self.old {
              held = self.new.held;
              calls = counted self.old.calls;
              faults = if is_ok result then self.old.faults else counted self.old.faults;
            } }
    {
        self.calls = self.calls.saturating_add(1);
        let is_full = !bytes.is_empty() && self.held.len() == self.room;
        if is_full || self.fails.as_slice().contains(&self.calls) {
            self.faults = self.faults.saturating_add(1);
            return Err(Failed);
        }
        let count = bytes.len().min(self.most).min(self.room - self.held.len());
        self.held.extend_from_slice(&bytes[..count]).unwrap();
        Ok(count)
    }
}
