//! Sparse vectors that are kept once, however many entries name them.
ghost use Rattle.std.specs.Prelude.{◌≡◌, IfOk};

use frac128::{Sparse, Spot};
use src_sink::{Items, NoMemory};
use std::alloc::Global;
use std::marker::Model;
use std::rc::Rc;

/// A sparse vector that many may keep: its places stand in memory once.
#[derive(Debug, Drop)]
pub struct SharedVector {
    list: Rc<Sparse>,
}

impl Model for SharedVector {
    ghost use Rattle.std.specs.Prelude.{List};
    ghost use Rattle.frac128.specs.declared.vectors.Spot.{Spot};

    ghost Value = { List Spot };

    ghost view = { λ a. a.list.value };
}

/// A copy of a vector.
fn copy_of(alloc: Global, vector: &[Spot]) -> Result<Sparse, NoMemory>
    ensures { IfOk result (λ copy. copy ≡ vector.now) }
{
    let mut copy = Items::new(alloc);
    copy.append(vector)?;
    Ok(copy)
}

impl SharedVector {
    /// A copy of a vector, to be shared.
    pub fn of(alloc: Global, vector: &[Spot]) -> Result<SharedVector, NoMemory>
        ensures { IfOk result (λ shared. shared ≡ vector.now) }
    {
        let copy = copy_of(alloc, vector)?;
        let list = Rc::new(alloc, copy)?;
        Ok(SharedVector { list })
    }

    /// The vector once more. No place is copied.
    pub fn again(&self) -> Result<SharedVector, NoMemory>
        ensures { IfOk result (λ shared. shared ≡ self.now) }
    {
        let list = self.list.clone()?;
        Ok(SharedVector { list })
    }

    /// The places.
    pub fn as_slice(&self) -> &[Spot]
        ensures items { result.now ≡ self.now }
    {
        self.list.as_slice()
    }

    /// The vector for one owner: a copy, unless this is the last that keeps it.
    pub fn into_sparse(self, alloc: Global) -> Result<Sparse, NoMemory>
        ensures { IfOk result (λ vector. vector ≡ self) }
    {
        match Rc::try_unwrap(self.list) {
            Ok(vector) => Ok(vector),
            Err(list) => copy_of(alloc, list.as_slice()),
        }
    }
}
