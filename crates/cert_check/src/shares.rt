//! The vectors that entries share.
ghost use Rattle.std.specs.Prelude.{◌≡◌, ◌≤◌, ◌&&◌, nat_le, [], length, IsTrue, OnOk};
ghost use Rattle.frac128.specs.Sparse.{IsSparse};
ghost use Rattle.deriv_log.specs.Formed.{is_formed};
ghost use Rattle.log_versions.specs.Plain.{shared};
ghost use Rattle.cert_check.specs.Keeping.{next_shares};

use deriv_log::Entry;
use entry_checks::SharedVector;
use src_sink::{Items, NoMemory};
use std::alloc::Global;
use std::marker::Model;

/// The vectors that the entries before share, numbered from 1 in their order.
#[derive(Debug, Drop)]
pub struct Shares {
    list: Items<SharedVector>,
}

impl Model for Shares {
    ghost use Rattle.std.specs.Prelude.{List, All};
    ghost use Rattle.frac128.specs.Sparse.{IsSparse};
    ghost use Rattle.frac128.specs.declared.vectors.Spot.{Spot};

    ghost Value = { List (List Spot) };

    ghost view = { λ a. a.list };

    ghost invariant = { λ a. All IsSparse a.list };
}

impl Shares {
    /// Where there is no entry.
    pub fn new(alloc: Global) -> Shares
        ensures { result ≡ [] }
    {
        Shares {
            list: Items::new(alloc),
        }
    }

    /// Keeps the vector of the entry, if it is a `share`.
    pub fn keep(&mut self, alloc: Global, entry: &Entry) -> Result<(), NoMemory>
        requires { IsTrue (is_formed entry.now) }
        ensures { OnOk result (self.new ≡ next_shares self.old entry.now) }
    {
        if let Entry::Share { v } = entry {
            let shared = SharedVector::of(alloc, v.as_slice())?;
            self.list.push(shared)?;
        }
        Ok(())
    }

    /// Whether there is one of this number.
    pub fn has(&self, share: u32) -> bool
        ensures { result ≡ (nat_le 1 share && nat_le share (length self.now)) }
    {
        1 <= share && share as usize <= self.list.len()
    }

    /// The one of this number.
    pub fn at(&self, share: u32) -> &SharedVector
        requires least { 1 ≤ share }
        requires most { share ≤ length self.now }
        ensures value { result.now ≡ shared self.now share }
        ensures sparse { IsSparse result.now }
    {
        &self.list.as_slice()[share as usize - 1]
    }
}
