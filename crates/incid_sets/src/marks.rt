//! Sets of numbers below a bound.
ghost use Rattle.std.specs.Prelude.{◌≡◌, ◌<◌, ◌≤◌, ◌*◌, ◌+◌, ◌-◌, ◌++◌, ◌∷◌, [], ◌↔◌, ℕ, List, Bool, IsOk, IsTrue, true, OnOk, OnErr, IfOk, length, slice_set, ◌&&◌};
ghost use Rattle.incid_sets.specs.Marks.{has, no_marks, size, ContainsAll, CoversBoth, HasRoom, IsAllBut, IsMeet, IsNextFrom, IsUnion};

use crate::words::{
    WORD, add_words, clear_words, contains_words, count_marks, covers_words, grow_words, has_mark,
    have_at_least, keep_words, mark_from, set_mark, share_at_least, tell_mark, words_for,
    write_meet, zero_words,
};
use src_sink::NoMemory;
use std::alloc::Global;
use std::marker::Model;

/// A finite set of numbers below a bound, which takes a bit for each number below it.
#[derive(Debug, Drop)]
pub struct Marks {
    words: Vec<u64>,
    bound: u32,
}

impl Model for Marks {
    ghost use Rattle.std.specs.Prelude.{List, Bool};
    ghost use Rattle.incid_sets.specs.Words.{marks_below, AreBounded};

    ghost Value = { List Bool };

    ghost view = { λ m. marks_below m.bound m.words.items };

    ghost invariant = { λ m. AreBounded m.words.items m.bound };
}

impl Marks {
    /// The empty set, for numbers below `bound`.
    pub fn new(alloc: Global, bound: u32) -> Result<Marks, NoMemory>
        ensures { IfOk result (λ marks. marks ≡ no_marks bound) }
    {
        let words = zero_words(alloc, words_for(bound))?;
        Ok(Marks { words, bound })
    }

    /// The set of all numbers below `bound` but one.
    pub fn all_but(alloc: Global, bound: u32, out: u32) -> Result<Marks, NoMemory>
        ensures { IfOk result (λ marks. IsAllBut bound out marks) }
    {
        let mut marks = Marks::new(alloc, 0)?;
        for k in 0..bound {
            marks.widen(k != out)?;
        }
        Ok(marks)
    }

    /// The number below which all members are.
    pub fn bound(&self) -> u32
        ensures { result ≡ length self.now }
    {
        self.bound
    }

    /// Raises the bound, or leaves it where it is as great already.
    pub fn grow(&mut self, bound: u32) -> Result<(), NoMemory>
        ensures ok { OnOk result (self.new ≡ self.old ++ no_marks (bound - length self.old)) }
        ensures err { OnErr result (self.new ≡ self.old) }
    {
        grow_words(&mut self.words, words_for(bound))?;
        self.bound = self.bound.max(bound);
        Ok(())
    }

    /// Whether a set with this bound has room for one place more: then `widen` takes no memory.
    pub fn has_room(bound: u32) -> bool
        ensures { IsTrue result ↔ HasRoom bound }
    {
        bound as usize % WORD != 0
    }

    /// Raises the bound by one, and tells whether the set has the new number.
    pub fn widen(&mut self, is_in: bool) -> Result<(), NoMemory>
        requires { length self.old + 1 < 4294967296 }
        ensures ok { OnOk result (self.new ≡ self.old ++ is_in ∷ []) }
        ensures err { OnErr result (self.new ≡ self.old) }
        ensures free { HasRoom (length self.old) → IsOk result }
    {
        let k = self.bound;
        grow_words(&mut self.words, words_for(k + 1))?;
        tell_mark(&mut self.words, k as usize, is_in);
        self.bound = k + 1;
        Ok(())
    }

    /// Gives the set a number.
    pub fn insert(&mut self, k: u32)
        requires { k < length self.old }
        ensures { self.new ≡ slice_set self.old k true }
    {
        set_mark(&mut self.words, k as usize);
    }

    /// Whether the set has the number.
    pub fn has(&self, k: u32) -> bool
        ensures { result ≡ has self.now k }
    {
        has_mark(&self.words, k as usize)
    }

    /// Whether the set has at least as many numbers as `count`.
    pub fn has_at_least(&self, count: u32) -> bool
        ensures { IsTrue result ↔ (count ≤ size self.now) }
    {
        have_at_least(&self.words, count)
    }

    /// Whether the two have at least as many common numbers as `count`.
    pub fn shares(&self, other: &Marks, count: usize) -> bool
        ensures { (common : List Bool) × IsMeet common self.now other.now
            × (IsTrue result ↔ (count ≤ size common)) }
    {
        share_at_least(&self.words, &other.words, count)
    }

    /// How many numbers the set has.
    pub fn count(&self) -> u32
        ensures { result ≡ size self.now }
    {
        let _bound = self.bound;
        count_marks(&self.words)
    }

    /// Whether the set has each number of the other.
    pub fn contains_all(&self, other: &Marks) -> bool
        ensures { IsTrue result ↔ ContainsAll self.now other.now }
    {
        contains_words(&self.words, &other.words)
    }

    /// Whether the set has each common number of the two others.
    pub fn covers(&self, a: &Marks, b: &Marks) -> bool
        ensures { IsTrue result ↔ CoversBoth self.now a.now b.now }
    {
        covers_words(&self.words, &a.words, &b.words)
    }

    /// The common numbers of two sets.
    pub fn meet(alloc: Global, a: &Marks, b: &Marks) -> Result<Marks, NoMemory>
        ensures { IfOk result (λ marks. IsMeet marks a.now b.now) }
    {
        let bound = a.bound.min(b.bound);
        let mut words = zero_words(alloc, words_for(bound))?;
        write_meet(&mut words, &a.words, &b.words);
        Ok(Marks { words, bound })
    }

    /// Makes the set that of the common numbers of two others with its bound. No memory is taken.
    pub fn set_meet(&mut self, a: &Marks, b: &Marks)
        requires first { length self.old ≡ length a.now }
        requires second { length self.old ≡ length b.now }
        ensures { IsMeet self.new a.now b.now }
    {
        write_meet(&mut self.words, &a.words, &b.words);
    }
    /// Gives the set each number of another one, whose bound is not greater. No memory is taken.
    pub fn unite(&mut self, other: &Marks)
        requires { length other.now ≤ length self.old }
        ensures { IsUnion self.new self.old other.now }
    {
        add_words(&mut self.words, &other.words);
    }

    /// Takes from the set each number that the other does not have. No memory is taken.
    pub fn keep(&mut self, other: &Marks)
        ensures bound { length self.new ≡ length self.old }
        ensures common { (k : ℕ) → has self.new k ≡ (has self.old k && has other.now k) }
    {
        keep_words(&mut self.words, &other.words);
    }

    /// Makes the set empty. No memory is taken.
    pub fn clear(&mut self)
        ensures { self.new ≡ no_marks (length self.old) }
    {
        clear_words(&mut self.words);
    }

    /// The least number of the set that is not less than `k`. The cost is that of the words
    /// between.
    pub fn next_from(&self, k: u32) -> Option<u32>
        ensures { IsNextFrom self.now k result }
    {
        let _bound = self.bound;
        mark_from(&self.words, k)
    }
}
