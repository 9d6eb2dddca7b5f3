//! The items of lists, and lists of them, read from the words of a line.
ghost use Rattle.std.specs.Prelude.{◌≡◌, ◌∷◌, [], ◌++◌, ℕ, List, Bool, ◌<◌, length, decimal, OnOk};
ghost use Rattle.std.specs.List.{flat_map};
ghost use Rattle.word_lines.specs.Printing.{spaced};
ghost use Rattle.frac128.specs.Held.{is_held};
ghost use Rattle.frac128.specs.Text.{frac_text};
ghost use Rattle.word_lines.specs.Parts.{is_short, is_formed_pair};
ghost use Rattle.word_lines.specs.LineFault.{Left, word, pair};
ghost use Rattle.word_lines.specs.Parts.{pair_words, spot_words};
ghost use Rattle.word_lines.specs.Numerals.{natural_fault, number_fault};
ghost use Rattle.word_lines.specs.Taking.{TakesItem, TakesItems, TakesList};

use crate::fault::{LogKind, Stop};
use crate::number::{fraction, natural};
use crate::part::LogPair;
use crate::words::Words;
use frac128::{Frac, Spot, put_frac};
use itoa::Buffer;
use src_sink::{Bytes, Items, NoMemory};
use std::alloc::Global;

/// What a line has as words.
pub trait Printed {
    ghost words_of: { Self → List (List ℕ) };

    /// Appends its words, a blank before each.
    fn put(&self, into: &mut Bytes) -> Result<(), NoMemory>
        ensures { OnOk result (into.new ≡ into.old ++ spaced (words_of self.now)) };
}

/// An item of a list, which is read by itself.
pub trait Item: Printed + Sized + Drop {
    ghost is_good: { Self → Bool };

    ghost step: { List (List ℕ) → Left };

    /// How many words it has.
    fn width() -> usize
        ensures { 0 < result };

    /// The item whose words stand first.
    fn take(words: &mut Words) -> Result<Self, Stop>
        ensures { TakesItem Self.words_of is_good step words.old words.new result };
}

impl Printed for Spot {
    ghost words_of = { spot_words };

    fn put(&self, into: &mut Bytes) -> Result<(), NoMemory> {
        self.at.put(into)?;
        self.value.put(into)?;
        Ok(())
    }
}

impl Printed for u32 {
    ghost words_of = { λ n. decimal n ∷ [] };

    fn put(&self, into: &mut Bytes) -> Result<(), NoMemory> {
        put_count(*self as usize, into)
    }
}

impl Item for u32 {
    ghost is_good = { is_short };

    ghost step = { word natural_fault };

    fn width() -> usize {
        1
    }

    fn take(words: &mut Words) -> Result<u32, Stop> {
        match words.next() {
            Some(word) => Ok(natural(word)?),
            None => Err(Stop::Fault(LogKind::BadLine)),
        }
    }
}

impl Printed for Frac {
    ghost words_of = { λ q. frac_text q ∷ [] };

    fn put(&self, into: &mut Bytes) -> Result<(), NoMemory> {
        into.push(b' ')?;
        put_frac(*self, into)?;
        Ok(())
    }
}

impl Item for Frac {
    ghost is_good = { is_held };

    ghost step = { word number_fault };

    fn width() -> usize {
        1
    }

    fn take(words: &mut Words) -> Result<Frac, Stop> {
        match words.next() {
            Some(word) => Ok(fraction(word)?),
            None => Err(Stop::Fault(LogKind::BadLine)),
        }
    }
}

impl Printed for LogPair {
    ghost words_of = { pair_words };

    fn put(&self, into: &mut Bytes) -> Result<(), NoMemory> {
        self.plus.put(into)?;
        self.minus.put(into)?;
        Ok(())
    }
}

impl Item for LogPair {
    ghost is_good = { is_formed_pair };

    ghost step = { pair };

    fn width() -> usize {
        2
    }

    fn take(words: &mut Words) -> Result<LogPair, Stop> {
        let plus = u32::take(words)?;
        let minus = u32::take(words)?;
        Ok(LogPair { plus, minus })
    }
}

/// So many items. Memory is taken once, where so many words are left.
pub fn take_items<T: Item>(alloc: Global, count: u32, words: &mut Words) -> Result<Items<T>, Stop>
    ensures { TakesItems T.words_of T.is_good T.step count words.old words.new result }
{
    let mut items = Items::with_room(alloc, words.room(count, T::width()))?;
    for _ in 0..count {
        items.push(T::take(words)?)?;
    }
    Ok(items)
}

/// Items after their count.
pub fn take_list<T: Item>(alloc: Global, words: &mut Words) -> Result<Items<T>, Stop>
    ensures { TakesList T.words_of T.is_good T.step words.old words.new result }
{
    let count = u32::take(words)?;
    take_items(alloc, count, words)
}

/// Appends a blank and a number.
pub fn put_count(count: usize, into: &mut Bytes) -> Result<(), NoMemory>
    ensures { OnOk result (into.new ≡ into.old ++ spaced (decimal count ∷ [])) }
{
    into.push(b' ')?;
    into.append(Buffer::new().format(count).as_bytes())?;
    Ok(())
}

/// Appends items one after the other.
pub fn put_items<T: Printed>(items: &[T], into: &mut Bytes) -> Result<(), NoMemory>
    ensures { OnOk result (into.new ≡ into.old ++ spaced (flat_map T.words_of items.now)) }
{
    for item in items {
        item.put(into)?;
    }
    Ok(())
}

/// Appends items after their count.
pub fn put_list<T: Printed>(items: &[T], into: &mut Bytes) -> Result<(), NoMemory>
    ensures { OnOk result (into.new
        ≡ into.old ++ spaced (decimal (length items.now) ∷ flat_map T.words_of items.now)) }
{
    put_count(items.len(), into)?;
    put_items(items, into)?;
    Ok(())
}
