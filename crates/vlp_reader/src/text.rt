//! The lines of a text, and the words of a line, one at a time.
ghost use Rattle.std.specs.Prelude.{◌≡◌, ◌==◌, ◌||◌, ◌<◌, ◌≤◌, [], ◌∷◌, false, length, slice_index, MatchOption};
ghost use Rattle.std.specs.List.{position_or_len};
ghost use Rattle.vlp_reader.specs.Lines.{lines_of, words_of, is_blank, without_return as line_of, letter as letter_of};
ghost use Rattle.vlp_reader.specs.Number.{natural as natural_of};

use src_sink::first_piece;

/// The place of the first of two bytes, or the length where neither stands in the text.
pub(crate) fn place_of(text: &[u8], one: u8, other: u8) -> usize
    ensures value { result ≡ position_or_len (λ b. b == one || b == other) text.now }
    ensures bound { result ≤ length text.now }
{
    for (i, b) in text.iter().enumerate() {
        if *b == one || *b == other {
            return i;
        }
    }
    text.len()
}

/// A piece between line feeds without one carriage return at its end.
fn without_return(piece: &[u8]) -> &[u8]
    ensures { result.now ≡ line_of piece.now }
{
    match piece {
        [line @ .., b'\r'] => line,
        _ => piece,
    }
}

/// The first line, and what stands after it.
pub(crate) fn next_line(text: &[u8]) -> Option<(&[u8], &[u8])>
    ensures { MatchOption result (lines_of text.now ≡ []) (λ p. (lines_of text.now
        ≡ p.0.now ∷ lines_of p.1.now) × (length p.1.now < length text.now)) }
{
    if text.is_empty() {
        return None;
    }
    let (piece, after) = first_piece(text, b'\n');
    let line = without_return(piece);
    match after {
        Some(rest) => Some((line, rest)),
        None => Some((line, &[])),
    }
}

/// The text from the first byte on that is no blank.
fn without_blanks(text: &[u8]) -> &[u8]
    ensures words { words_of result.now ≡ words_of text.now }
    ensures first { 0 < length result.now → is_blank (slice_index result.now 0) ≡ false }
{
    let mut rest = text;
    while let [b' ' | b'\t', more @ ..] = rest {
        rest = more;
    }
    rest
}

/// The first word, and what stands after it.
pub(crate) fn next_word(text: &[u8]) -> Option<(&[u8], &[u8])>
    ensures { MatchOption result (words_of text.now ≡ [])
        (λ p. words_of text.now ≡ p.0.now ∷ words_of p.1.now) }
{
    let rest = without_blanks(text);
    if rest.is_empty() {
        return None;
    }
    let end = place_of(rest, b' ', b'\t');
    Some((&rest[..end], &rest[end..]))
}

/// The byte of a word of one byte, or 0.
pub(crate) fn letter(word: &[u8]) -> u8
    ensures { result ≡ letter_of word.now }
{
    if word.len() == 1 { word[0] } else { 0 }
}

/// The number that a word of digits writes, or the greatest that fits where it is above that.
pub(crate) fn natural(word: &[u8]) -> Option<u32>
    ensures { result ≡ natural_of word.now }
{
    if word.is_empty() {
        return None;
    }
    let mut value: u32 = 0;
    for b in word {
        if !b.is_ascii_digit() {
            return None;
        }
        value = value
            .saturating_mul(10)
            .saturating_add(u32::from(*b - b'0'));
    }
    Some(value)
}
