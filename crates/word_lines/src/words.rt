//! The words of a line, from left to right.
ghost use Rattle.std.specs.Prelude.{◌≡◌, ◌∷◌, [], ◌==◌, ◌<◌, ◌≤◌, length, MatchOption};
ghost use Rattle.std.specs.List.{list_any, slice_split};
ghost use Rattle.word_lines.specs.Numerals.{same_word};

use src_sink::first_piece;
use std::marker::Model;

/// The words that are left. In contracts they are a list.
#[derive(Drop)]
pub struct Words<'a> {
    rest: Option<&'a [u8]>,
}

impl<'a> Model for Words<'a> {
    ghost use Rattle.std.specs.Prelude.{ℕ, List};
    ghost use Rattle.src_sink.specs.Texts.{pieces_after};

    ghost Value = { List (List ℕ) };

    ghost view = { λ words. pieces_after 32 words.rest };
}

impl<'a> Words<'a> {
    /// The words between the blanks of a line.
    pub fn of(line: &'a [u8]) -> Words<'a>
        ensures { result ≡ slice_split (λ b. b == 32) line.now }
    {
        Words { rest: Some(line) }
    }

    /// Takes the next word; `None` where none is left.
    pub fn next(&mut self) -> Option<&'a [u8]>
        ensures { MatchOption result ((self.old ≡ []) × (self.new ≡ []))
            (λ word. self.old ≡ word.now ∷ self.new) }
    {
        match self.rest {
            Some(text) => {
                let (word, rest) = first_piece(text, b' ');
                self.rest = rest;
                Some(word)
            }
            None => None,
        }
    }

    /// Room for so many items of `each` words, where so many words are left; else no room is
    /// wanted, since a word will be missing.
    pub(crate) fn room(&self, count: u32, each: usize) -> usize
        requires { 0 < each }
    {
        let left = match self.rest {
            Some(text) => blanks(text).saturating_add(1),
            None => 0,
        };
        let count = count as usize;
        if count <= left / each { count } else { 0 }
    }
}

fn blanks(text: &[u8]) -> usize {
    text.iter().filter(|b| **b == b' ').count()
}

/// Whether a word of the line is empty: a blank stands at an end, or two stand together.
pub fn has_empty_word(line: &[u8]) -> bool
    ensures { result ≡ list_any (λ word. length word == 0) (slice_split (λ b. b == 32) line.now) }
{
    let mut words = Words::of(line);
    while let Some(word) = words.next() {
        if word.is_empty() {
            return true;
        }
    }
    false
}

/// Whether a word is this one.
pub fn is_word(word: &[u8], name: &[u8]) -> bool
    ensures { result ≡ same_word word.now name.now }
{
    word == name
}
