//! The parts of an entry, read from the words of its line. Each stands first and is taken, or its
//! first word that fails is told.
ghost use Rattle.std.specs.Prelude.{◌≡◌, ◌∷◌, [], ◌&&◌, not, nat_lt, decimal, Some, true, MatchOption, MatchResult};
ghost use Rattle.frac128.specs.Held.{is_held};
ghost use Rattle.frac128.specs.Sparse.{is_zero};
ghost use Rattle.frac128.specs.Text.{frac_text};
ghost use Rattle.word_lines.specs.Parts.{is_short};
ghost use Rattle.word_lines.specs.LineFault as form;
ghost use Rattle.word_lines.specs.LineFault.{kind_fault, place_fault, value_fault, word as one_word};
ghost use Rattle.word_lines.specs.Parts as part;
ghost use Rattle.word_lines.specs.Parts.{end_word};
ghost use Rattle.word_lines.specs.Taking.{Takes, TakesItem, TakesSpot, TakesSpots};

use crate::fault::{LogKind, Stop};
use crate::items::{Item, take_list};
use crate::number::fraction;
use crate::part::{EndKind, LogPair};
use crate::words::{Words, is_word};
use frac128::{Frac, Sparse, Spot, Vector};
use src_sink::Items;
use std::alloc::Global;

/// Takes the word of a natural number.
pub fn take_natural(words: &mut Words) -> Result<u32, Stop>
    ensures { Takes part.natural form.natural words.old words.new result }
{
    u32::take(words)
}

/// Takes the word of a fraction.
pub fn take_number(words: &mut Words) -> Result<Frac, Stop>
    ensures { Takes part.number form.number words.old words.new result }
{
    Frac::take(words)
}

/// A vector after its count.
pub fn take_vector(alloc: Global, words: &mut Words) -> Result<Vector, Stop>
    ensures { Takes part.vector form.vector words.old words.new result }
{
    take_list(alloc, words)
}

/// Natural numbers after their count.
pub fn take_naturals(alloc: Global, words: &mut Words) -> Result<Items<u32>, Stop>
    ensures { Takes part.naturals form.naturals words.old words.new result }
{
    take_list(alloc, words)
}

/// Pairs after their count.
pub fn take_pairs(alloc: Global, words: &mut Words) -> Result<Items<LogPair>, Stop>
    ensures { Takes part.pairs form.pairs words.old words.new result }
{
    take_list(alloc, words)
}

/// Takes the word of an end.
pub fn take_kind(words: &mut Words) -> Result<EndKind, Stop>
    ensures { Takes part.kind form.kind words.old words.new result }
{
    match words.next() {
        Some(word) => match kind_of(word) {
            Some(kind) => Ok(kind),
            None => Err(Stop::Fault(LogKind::BadLine)),
        },
        None => Err(Stop::Fault(LogKind::BadLine)),
    }
}

fn kind_of(word: &[u8]) -> Option<EndKind>
    ensures { MatchOption result (kind_fault word.now ≡ Some LogKind.BadLine)
        (λ kind. word.now ≡ end_word kind) }
{
    if is_word(word, b"infeasible") {
        Some(EndKind::Infeasible)
    } else if is_word(word, b"whole") {
        Some(EndKind::Whole)
    } else if is_word(word, b"novertex") {
        Some(EndKind::NoVertex)
    } else if is_word(word, b"solved") {
        Some(EndKind::Solved)
    } else {
        None
    }
}

/// Takes a place, which is above `last`.
fn take_place(last: u32, words: &mut Words) -> Result<u32, Stop>
    ensures { TakesItem (λ n. decimal n ∷ []) (λ n. is_short n && nat_lt last n)
        (one_word (place_fault last)) words.old words.new result }
{
    let at = u32::take(words)?;
    if at > last {
        Ok(at)
    } else {
        Err(Stop::Fault(LogKind::OutOfRange))
    }
}

/// The number of a word that is not `0`.
fn nonzero_number(word: &[u8]) -> Result<Frac, LogKind>
    ensures { MatchResult result
        (λ q. (is_held q ≡ true) × (not (is_zero q) ≡ true) × (word.now ≡ frac_text q))
        (λ kind. value_fault word.now ≡ Some kind) }
{
    if is_word(word, b"0") {
        return Err(LogKind::BadNumber);
    }
    fraction(word)
}

/// Takes a number, which is not 0.
fn take_value(words: &mut Words) -> Result<Frac, Stop>
    ensures { TakesItem (λ q. frac_text q ∷ []) (λ q. is_held q && not (is_zero q))
        (one_word value_fault) words.old words.new result }
{
    match words.next() {
        Some(word) => Ok(nonzero_number(word)?),
        None => Err(Stop::Fault(LogKind::BadLine)),
    }
}

/// A place above `last`, and its value.
fn take_spot(last: u32, words: &mut Words) -> Result<Spot, Stop>
    ensures { TakesSpot last words.old words.new result }
{
    let at = take_place(last, words)?;
    let value = take_value(words)?;
    Ok(Spot { at, value })
}

/// So many places and values, the places rising from 1.
fn take_spots(alloc: Global, count: u32, words: &mut Words) -> Result<Sparse, Stop>
    ensures { TakesSpots count words.old words.new result }
{
    let mut spots = Items::with_room(alloc, words.room(count, 2))?;
    let mut last = 0;
    for _ in 0..count {
        let spot = take_spot(last, words)?;
        last = spot.at;
        spots.push(spot)?;
    }
    Ok(spots)
}

/// A sparse vector after its count.
pub fn take_sparse(alloc: Global, words: &mut Words) -> Result<Sparse, Stop>
    ensures { Takes part.sparse form.sparse words.old words.new result }
{
    let count = u32::take(words)?;
    take_spots(alloc, count, words)
}
