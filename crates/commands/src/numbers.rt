//! Numbers as words.
ghost use Rattle.std.specs.Prelude.{◌≡◌};
ghost use Rattle.commands.specs.Numbers.{is_word_of, number_of};

use itoa::Buffer;

/// Whether a word is the decimal text of a number from 1 to a greatest one.
fn is_word_of(most: u32, word: &str, number: u32) -> bool
    ensures { result ≡ is_word_of most word.now number }
{
    word == Buffer::new().format(number) && 1 <= number && number <= most
}

/// The number from 1 to a greatest one that a word is the decimal text of, with no sign and no zero
/// in front.
pub fn number_of(most: u32, word: &str) -> Option<u32>
    ensures { result ≡ number_of most word.now }
{
    let Ok(number) = word.parse::<u32>() else {
        return None;
    };
    if is_word_of(most, word, number) {
        Some(number)
    } else {
        None
    }
}
