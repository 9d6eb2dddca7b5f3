//! Bits of words, taken a word at a time. A list of words that is shorter counts as continued with
//! zeros.
ghost use Rattle.std.specs.Prelude.{◌≡◌, ◌+◌, ◌<◌, ◌/◌, ◌*◌, ◌^◌, ◌≤◌, ◌↔◌, ℕ, IsOk, IsTrue, false, bit_and, count_ones, IfOk, OnOk, replicate, ◌&&◌, ◌||◌, slice_index, vec_len};
ghost use Rattle.incid_sets.specs.Marks.{size};
ghost use Rattle.incid_sets.specs.Words.{common_words, is_marked, marks_below, AddsMark, AreBounded, IsMarkedFrom, TellsMark};

use src_sink::NoMemory;
use std::alloc::Global;

/// How many numbers a word has bits for.
pub const WORD: usize = 64;

/// How many words have bits for the numbers below the bound, and no fewer do.
pub fn words_for(bound: u32) -> usize
    ensures enough { bound ≤ 64 * result }
    ensures least { 64 * result < bound + 64 }
{
    (bound as usize).div_ceil(WORD)
}

/// Words without a number.
pub fn zero_words(alloc: Global, count: usize) -> Result<Vec<u64>, NoMemory>
    ensures { IfOk result (λ words. words.items ≡ replicate count 0) }
{
    Ok(vec![in alloc; 0; count]?)
}

/// Appends words without a number until there are as many as `count`. Where there are already, no
/// memory is taken.
pub fn grow_words(words: &mut Vec<u64>, count: usize) -> Result<(), NoMemory>
    ensures room { OnOk result (count ≤ vec_len words.new) }
    ensures more { vec_len words.old ≤ vec_len words.new }
    ensures same { (k : ℕ) → is_marked words.new.items k ≡ is_marked words.old.items k }
    ensures free { count ≤ vec_len words.old → IsOk result }
{
    while words.len() < count {
        words.push(0)?;
    }
    Ok(())
}

/// Word `i`, or 0 past the end.
fn word_at(words: &[u64], i: usize) -> u64
    ensures { result ≡ slice_index words.now i }
{
    words.get(i).copied().unwrap_or(0)
}

/// Whether the words have number `k`.
pub fn has_mark(words: &[u64], k: usize) -> bool
    ensures { result ≡ is_marked words.now k }
{
    word_at(words, k / WORD) >> (k % WORD) & 1 == 1
}

/// Gives the words number `k`.
pub fn set_mark(words: &mut Vec<u64>, k: usize)
    requires { k < 64 * vec_len words.old }
    ensures { AddsMark words.old.items words.new.items k }
{
    words[k / WORD] |= 1 << (k % WORD);
}

/// Gives the words number `k`, if it is to be in them.
pub fn tell_mark(words: &mut Vec<u64>, k: usize, is_in: bool)
    requires { k < 64 * vec_len words.old }
    ensures { TellsMark words.old.items words.new.items k is_in }
{
    if is_in {
        set_mark(words, k);
    }
}

/// Whether the first words have each number of the others.
pub fn contains_words(words: &[u64], other: &[u64]) -> bool
    ensures { IsTrue result
        ↔ ((k : ℕ) → IsTrue (is_marked other.now k) → IsTrue (is_marked words.now k)) }
{
    for (i, word) in other.iter().enumerate() {
        if *word & word_at(words, i) != *word {
            return false;
        }
    }
    true
}

/// Whether the first words have each common number of the two others.
pub fn covers_words(words: &[u64], a: &[u64], b: &[u64]) -> bool
    ensures { IsTrue result
        ↔ ((k : ℕ) → IsTrue (is_marked a.now k) → IsTrue (is_marked b.now k)
        → IsTrue (is_marked words.now k)) }
{
    for (i, word) in a.iter().enumerate() {
        let common = *word & word_at(b, i);
        if common & word_at(words, i) != common {
            return false;
        }
    }
    true
}

/// Whether the words have at least as many numbers as `count`. It stops at the first words that do.
pub fn have_at_least(words: &[u64], count: u32) -> bool
    ensures { (bound : ℕ) → AreBounded words.now bound
        → IsTrue result ↔ (count ≤ size (marks_below bound words.now)) }
{
    let mut missing = count;
    for word in words {
        let ones = word.count_ones();
        if missing <= ones {
            return true;
        }
        missing -= ones;
    }
    missing == 0
}

/// Whether the two have at least as many common numbers as `count`. It stops at the first words
/// that do.
pub fn share_at_least(a: &[u64], b: &[u64], count: usize) -> bool
    ensures { (bound : ℕ) → AreBounded (common_words a.now b.now) bound
        → IsTrue result ↔ (count ≤ size (marks_below bound (common_words a.now b.now))) }
{
    let mut missing = count;
    for (x, y) in a.iter().zip(b) {
        let ones = (*x & *y).count_ones() as usize;
        if missing <= ones {
            return true;
        }
        missing -= ones;
    }
    missing == 0
}

/// How many numbers the set has, where its bound is below 2^32.
pub fn count_marks(words: &[u64]) -> u32
    ensures { (bound : ℕ) → AreBounded words.now bound → bound < 2 ^ 32
        → result ≡ size (marks_below bound words.now) }
{
    let mut total: u32 = 0;
    for word in words {
        total = total.saturating_add(word.count_ones());
    }
    total
}

/// Makes the words have exactly the common numbers of the two others, as far as they have room.
pub fn write_meet(words: &mut Vec<u64>, a: &[u64], b: &[u64])
    ensures room { vec_len words.new ≡ vec_len words.old }
    ensures common { (k : ℕ) → k < 64 * vec_len words.old
        → is_marked words.new.items k ≡ (is_marked a.now k && is_marked b.now k) }
{
    for i in 0..words.len() {
        words[i] = word_at(a, i) & word_at(b, i);
    }
}

/// Gives the words each number of the others, as far as they have room.
pub fn add_words(words: &mut Vec<u64>, other: &[u64])
    ensures room { vec_len words.new ≡ vec_len words.old }
    ensures either { (k : ℕ) → k < 64 * vec_len words.old
        → is_marked words.new.items k ≡ (is_marked words.old.items k || is_marked other.now k) }
{
    for i in 0..words.len() {
        let more = words[i] | word_at(other, i);
        words[i] = more;
    }
}

/// Takes from the words each number that the others do not have.
pub fn keep_words(words: &mut Vec<u64>, other: &[u64])
    ensures room { vec_len words.new ≡ vec_len words.old }
    ensures common { (k : ℕ) → k < 64 * vec_len words.old
        → is_marked words.new.items k ≡ (is_marked words.old.items k && is_marked other.now k) }
{
    for i in 0..words.len() {
        let common = words[i] & word_at(other, i);
        words[i] = common;
    }
}

/// Takes each number from the words.
pub fn clear_words(words: &mut Vec<u64>)
    ensures { words.new.items ≡ replicate (vec_len words.old) 0 }
{
    for i in 0..words.len() {
        words[i] = 0;
    }
}

/// The least number of the words that is not less than `k`, where all are below 2^32.
pub fn mark_from(words: &[u64], k: u32) -> Option<u32>
    requires { (i : ℕ) → 2 ^ 32 ≤ i → is_marked words.now i ≡ false }
    ensures { IsMarkedFrom words.now k result }
{
    let first = k as usize / WORD;
    let rest = word_at(words, first) >> (k as usize % WORD);
    if rest != 0 {
        return Some(k + rest.trailing_zeros());
    }
    for i in first + 1..words.len() {
        let word = words[i];
        if word != 0 {
            return Some((i * WORD) as u32 + word.trailing_zeros());
        }
    }
    None
}
