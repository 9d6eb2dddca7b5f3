//! Words that are numbers.
ghost use Rattle.std.specs.Prelude.{◌≡◌, ◌+◌, ◌-◌, ◌^◌, ◌<◌, ◌≤◌, ◌++◌, pos, neg_ℤ, ◌<ℤ◌, min, length, unsigned_abs, if◌then◌else◌, Some, IsTrue, IfSome};
ghost use Rattle.exact_field.specs.Rational.{fraction};
ghost use Rattle.std.specs.List.{before_first, after_first};
ghost use Rattle.std.specs.Str.{all_ascii_digits};
ghost use Rattle.std.specs.Str.Parse.{digits_value_after, digits_value, starts_with_minus, without_leading_sign};
ghost use Rattle.vlp_reader.specs.Number.{is_natural, is_point, exponent_of, number_of, number_at as number_at_power, number_from as number_of_parts, held_number, scaled as scaled_number, without_leading_zeros as leading_of, without_trailing_zeros as trailing_of};

use crate::fault::FileKind;
use crate::text::{natural, place_of};
use exact_field::Field;
use frac128::Frac;

/// A text without one sign at its front.
fn without_sign(text: &[u8]) -> &[u8]
    ensures { result.now ≡ without_leading_sign text.now }
{
    match text {
        [b'+' | b'-', rest @ ..] => rest,
        _ => text,
    }
}

/// Whether a minus stands first.
fn is_negative(text: &[u8]) -> bool
    ensures { result ≡ starts_with_minus text.now }
{
    matches!(text, [b'-', ..])
}

/// Digits without the zeros at their front.
fn without_leading_zeros(digits: &[u8]) -> &[u8]
    ensures { result.now ≡ leading_of digits.now }
{
    let mut rest = digits;
    while let [b'0', more @ ..] = rest {
        rest = more;
    }
    rest
}

/// Digits without the zeros at their end.
fn without_trailing_zeros(digits: &[u8]) -> &[u8]
    ensures { result.now ≡ trailing_of digits.now }
{
    let mut end = digits.len();
    while 0 < end && digits[end - 1] == b'0' {
        end -= 1;
    }
    &digits[..end]
}

/// The digits before and after a point.
#[derive(Clone, Copy)]
struct Mantissa<'a> {
    whole: &'a [u8],
    decimals: &'a [u8],
}

/// The number that digits write after those of `start`, or the greatest that fits.
fn extend(start: u128, digits: &[u8]) -> u128
    requires { IsTrue (all_ascii_digits digits.now) }
    ensures { result ≡ min (digits_value_after 10 start digits.now) (2 ^ 128 - 1) }
{
    let mut value = start;
    for b in digits {
        value = value
            .saturating_mul(10)
            .saturating_add(u128::from(*b - b'0'));
    }
    value
}

/// Whether all bytes are digits.
fn are_digits(text: &[u8]) -> bool
    ensures { result ≡ all_ascii_digits text.now }
{
    for b in text {
        if !b.is_ascii_digit() {
            return false;
        }
    }
    true
}

impl<'a> Mantissa<'a> {
    /// The parts of a text at its first point.
    fn read(text: &'a [u8]) -> Mantissa<'a>
        ensures whole { result.whole.now ≡ before_first is_point text.now }
        ensures decimals { result.decimals.now ≡ after_first is_point text.now }
    {
        let at = place_of(text, b'.', b'.');
        let next = if at < text.len() { at + 1 } else { at };
        Mantissa {
            whole: &text[..at],
            decimals: &text[next..],
        }
    }

    /// How many bytes there are.
    fn len(self) -> usize
        ensures { result ≡ length (self.entry.whole.now ++ self.entry.decimals.now) }
    {
        self.whole.len() + self.decimals.len()
    }

    /// Whether there is a digit, and nothing else.
    fn is_natural(self) -> bool
        ensures { result ≡ is_natural (self.entry.whole.now ++ self.entry.decimals.now) }
    {
        if self.len() == 0 {
            return false;
        }
        if !are_digits(self.whole) {
            return false;
        }
        are_digits(self.decimals)
    }

    /// The digits without the zeros at their front.
    fn without_leading_zeros(self) -> Mantissa<'a>
        ensures { result.whole.now ++ result.decimals.now
            ≡ leading_of (self.entry.whole.now ++ self.entry.decimals.now) }
    {
        let whole = without_leading_zeros(self.whole);
        let decimals = if whole.is_empty() {
            without_leading_zeros(self.decimals)
        } else {
            self.decimals
        };
        Mantissa { whole, decimals }
    }

    /// The digits without the zeros at their end.
    fn without_trailing_zeros(self) -> Mantissa<'a>
        ensures { result.whole.now ++ result.decimals.now
            ≡ trailing_of (self.entry.whole.now ++ self.entry.decimals.now) }
    {
        let decimals = without_trailing_zeros(self.decimals);
        let whole = if decimals.is_empty() {
            without_trailing_zeros(self.whole)
        } else {
            self.whole
        };
        Mantissa { whole, decimals }
    }

    /// The number that the digits write.
    fn value(self) -> i128
        requires digits { IsTrue (all_ascii_digits (self.whole.now ++ self.decimals.now)) }
        requires short { length (self.whole.now ++ self.decimals.now) ≤ 36 }
        ensures value { result
            ≡ pos (digits_value 10 (self.entry.whole.now ++ self.entry.decimals.now)) }
        ensures bound { unsigned_abs result < 10 ^ 36 }
    {
        extend(extend(0, self.whole), self.decimals) as i128
    }
}

/// The exponent in a text without a sign.
fn exponent(text: &[u8]) -> Option<i128>
    ensures value { result ≡ exponent_of text.now }
    ensures bound { IfSome result (λ e. unsigned_abs e < 2 ^ 32) }
{
    let at = place_of(text, b'e', b'E');
    if at == text.len() {
        return Some(0);
    }
    let after = &text[at + 1..];
    let size = i128::from(natural(without_sign(after))?);
    Some(with_sign(is_negative(after), size))
}

/// A number with a sign.
fn with_sign(negative: bool, number: i128) -> i128
    requires { unsigned_abs number < 10 ^ 36 }
    ensures { result ≡ (if negative then neg_ℤ number else number) }
{
    if negative { -number } else { number }
}

fn power_of_ten(exponent: u32) -> i128
    requires { exponent ≤ 36 }
    ensures value { result ≡ pos (10 ^ exponent) }
{
    10_u128.pow(exponent) as i128
}

/// A fraction, where it is held.
fn held_fraction(num: i128, den: i128) -> Result<Frac, FileKind>
    requires { pos 0 <ℤ den }
    ensures { result ≡ held_number (fraction num (unsigned_abs den)) }
{
    match Frac::of(num, den) {
        Some(number) => Ok(number),
        None => Err(FileKind::NumberWide),
    }
}

/// A whole number times a power of ten, where it is held.
fn scale_digits(digits: i128, power: i128) -> Result<Frac, FileKind>
    requires { unsigned_abs power ≤ 36 }
    ensures { result ≡ held_number (scaled_number digits power) }
{
    let scale = power_of_ten(power.unsigned_abs() as u32);
    if power < 0 {
        return held_fraction(digits, scale);
    }
    match digits.checked_mul(scale) {
        Some(whole) => held_fraction(whole, 1),
        None => Err(FileKind::NumberWide),
    }
}

/// The number of significant digits times a power of ten.
fn number_at(negative: bool, digits: Mantissa, power: i128) -> Result<Frac, FileKind>
    requires { IsTrue (all_ascii_digits (digits.whole.now ++ digits.decimals.now)) }
    ensures { result
        ≡ number_at_power negative (digits.entry.whole.now ++ digits.entry.decimals.now) power }
{
    if digits.len() == 0 {
        return Ok(Frac::from(0));
    }
    if digits.len() > 36 {
        return Err(FileKind::Digits);
    }
    if power < -36 || 36 < power {
        return Err(FileKind::NumberWide);
    }
    scale_digits(with_sign(negative, digits.value()), power)
}

/// The number of the digits of a mantissa with an exponent.
fn number_from(negative: bool, digits: Mantissa, exponent: i128) -> Result<Frac, FileKind>
    requires { unsigned_abs exponent < 2 ^ 32 }
    ensures { result
        ≡ number_of_parts negative (digits.entry.whole.now ++ digits.entry.decimals.now)
        (length digits.entry.decimals.now) (Some exponent) }
{
    if !digits.is_natural() {
        return Err(FileKind::BadNumber);
    }
    let leading = digits.without_leading_zeros();
    let significant = leading.without_trailing_zeros();
    let zeros = leading.len() - significant.len();
    let power = exponent - digits.decimals.len() as i128 + zeros as i128;
    number_at(negative, significant, power)
}

/// The value of a word, or what is wrong with it as a number.
pub(crate) fn number(word: &[u8]) -> Result<Frac, FileKind>
    ensures { result ≡ number_of word.now }
{
    let text = without_sign(word);
    let Some(exponent) = exponent(text) else {
        return Err(FileKind::BadNumber);
    };
    let mantissa = &text[..place_of(text, b'e', b'E')];
    number_from(is_negative(word), Mantissa::read(mantissa), exponent)
}
