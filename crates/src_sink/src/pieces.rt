//! Texts that are cut at a byte, one piece at a time.
ghost use Rattle.std.specs.Prelude.{◌≡◌, ◌==◌, ◌<◌, ◌∷◌, length, position, IfSome};
ghost use Rattle.std.specs.List.{slice_split};
ghost use Rattle.src_sink.specs.Texts.{pieces_after};

use memchr::memchr;

/// The place of the first of this byte.
pub fn place_of(text: &[u8], byte: u8) -> Option<usize>
    ensures { result ≡ position (λ b. b == byte) text.now }
{
    memchr(byte, text)
}

/// The piece of a text before the first of this byte, and what stands after that byte where there
/// is one. It takes no memory, and looks at the piece alone.
pub fn first_piece(text: &[u8], byte: u8) -> (&[u8], Option<&[u8]>)
    ensures pieces { slice_split (λ b. b == byte) text.now
        ≡ result.0.now ∷ pieces_after byte result.1 }
    ensures shorter { IfSome result.1 (λ rest. length rest.now < length text.now) }
{
    match place_of(text, byte) {
        Some(at) => (&text[..at], Some(&text[at + 1..])),
        None => (text, None),
    }
}
