//! Lists whose places fit a `u32`.
ghost use Rattle.std.specs.Prelude.{◌≡◌, ◌≤◌, ℕ, List, [], ◌∷◌, ◌++◌, length, IfOk, OnOk, OnErr};

use std::alloc::{AllocError, AllocFailed, Global};
use std::marker::Model;

/// The most items that an `Items` ever gets memory for.
pub const MOST_ITEMS: usize = 4_294_967_294;

/// Want of memory, and nothing else.
#[derive(Clone, Copy, Debug, PartialEq, Eq)]
pub struct NoMemory;

impl From<AllocError> for NoMemory {
    ghost from_gives = { λ _ e. e ≡ record {} };

    fn from(_e: AllocError) -> NoMemory {
        NoMemory
    }
}

impl<T: Drop> From<AllocFailed<T>> for NoMemory {
    ghost from_gives = { λ _ e. e ≡ record {} };

    fn from(_e: AllocFailed<T>) -> NoMemory {
        NoMemory
    }
}

/// A list that keeps its allocator. A growth past `MOST_ITEMS` is refused, as one for which there
/// is no memory.
#[derive(Debug, Drop)]
pub struct Items<T> {
    list: Vec<T>,
}

/// A list of bytes.
pub type Bytes = Items<u8>;

impl<T> Model for Items<T> {
    ghost use Rattle.std.specs.Prelude.{◌≤◌, List, length};

    ghost Value = { List T };

    ghost view = { λ a. a.list.items };

    ghost invariant = { λ a. length a.list.items ≤ 4294967294 };
}

impl<T> Items<T> {
    /// The empty list, for which no memory is taken yet.
    pub fn new(alloc: Global) -> Items<T>
        ensures { result ≡ [] }
    {
        Items {
            list: Vec::new(alloc),
        }
    }

    /// The empty list, with memory for so many items.
    pub fn with_room(alloc: Global, room: usize) -> Result<Items<T>, NoMemory>
        ensures { IfOk result (λ list. list ≡ []) }
    {
        if room > MOST_ITEMS {
            return Err(NoMemory);
        }
        let list = Vec::with_capacity(alloc, room)?;
        Ok(Items { list })
    }

    /// The items of `list`, in their order. No memory is taken.
    pub fn from_vec(list: Vec<T>) -> Items<T>
        requires { length list.items ≤ MOST_ITEMS }
        ensures { result ≡ list.items }
    {
        Items { list }
    }

    /// The items, in their order. No memory is taken.
    pub fn into_vec(self) -> Vec<T>
        ensures items { result.items ≡ self }
        ensures bound { length result.items ≤ MOST_ITEMS }
    {
        self.list
    }

    /// How many items there are.
    pub fn len(&self) -> usize
        ensures value { result ≡ length self.now }
        ensures bound { result ≤ MOST_ITEMS }
    {
        self.list.len()
    }

    /// The items, in their order.
    pub fn as_slice(&self) -> &[T]
        ensures items { result.now ≡ self.now }
        ensures bound { length result.now ≤ MOST_ITEMS }
    {
        self.list.as_slice()
    }
}

impl<T: Drop> Items<T> {
    /// Appends `item`.
    pub fn push(&mut self, item: T) -> Result<(), NoMemory>
        ensures ok { OnOk result (self.new ≡ self.old ++ item ∷ []) }
        ensures err { OnErr result (self.new ≡ self.old) }
    {
        if self.list.len() >= MOST_ITEMS {
            return Err(NoMemory);
        }
        self.list.push(item)?;
        Ok(())
    }

    /// Lets all items go, and keeps the memory for later ones.
    pub fn clear(&mut self)
        ensures { self.new ≡ [] }
    {
        self.list.clear();
    }
}

impl<T: Copy> Items<T> {
    /// Appends all items of `more`.
    pub fn append(&mut self, more: &[T]) -> Result<(), NoMemory>
        ensures ok { OnOk result (self.new ≡ self.old ++ more.now) }
        ensures err { OnErr result (self.new ≡ self.old) }
    {
        if more.len() > MOST_ITEMS - self.list.len() {
            return Err(NoMemory);
        }
        self.list.extend_from_slice(more)?;
        Ok(())
    }
}

impl<T: PartialEq> PartialEq for Items<T> {
    ghost use Rattle.std.specs.Cmp.Lexicographic.{pointwise, lists_per};

    ghost eq = { pointwise T.eq };

    ghost laws = { lists_per T.laws };

    fn eq(&self, other: &Items<T>) -> bool {
        self.list == other.list
    }
}

impl<T: Eq> Eq for Items<T> {
    ghost use Rattle.std.specs.Cmp.Lexicographic.{lists_equiv};

    ghost laws = { lists_equiv T.Eq.laws };
}
