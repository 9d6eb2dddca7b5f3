//! The words of numbers.
ghost use Rattle.std.specs.Prelude.{◌≡◌, ◌==◌, ◌<◌, ◌^◌, Some, true, false, decimal, drop, if◌then◌else◌, min, pos, unsigned_abs, ◌<ℤ◌, ◌∷◌, [], IsTrue, MatchOption, MatchResult};
ghost use Rattle.std.specs.Str.{all_ascii_digits};
ghost use Rattle.std.specs.Str.Parse.{digits_value, starts_with_minus};
ghost use Rattle.exact_field.specs.Gcd.{gcd};
ghost use Rattle.frac128.specs.Held.{is_held};
ghost use Rattle.frac128.specs.Signed.{signed};
ghost use Rattle.frac128.specs.Text.{frac_text};
ghost use Rattle.word_lines.specs.Numerals.{is_positive_numeral, is_quotient, numerator, denominator, natural_fault, number_fault};
ghost use Rattle.std.specs.List.{slice_split};

use crate::fault::LogKind;
use crate::words::is_word;
use exact_field::Field;
use frac128::Frac;
use src_sink::first_piece;

/// The parts of a fraction are below this.
const LIMIT: u128 = 1 << 120;

/// The number that digits write, or `LIMIT` where it is not below that.
fn value(digits: &[u8]) -> Option<u128>
    ensures { MatchOption result (all_ascii_digits digits.now ≡ false) (λ v. (all_ascii_digits
        digits.now
        ≡ true) × (v ≡ min (digits_value 10 digits.now) (2 ^ 120))) }
{
    let mut value: u128 = 0;
    for b in digits {
        if !b.is_ascii_digit() {
            return None;
        }
        value = (10 * value + u128::from(*b - b'0')).min(LIMIT);
    }
    Some(value)
}

/// The number of a word of digits that does not begin with `0`, or `LIMIT` where it is not below
/// that.
fn positive_number(word: &[u8]) -> Option<u128>
    ensures { MatchOption result (is_positive_numeral word.now ≡ false) (λ v. (is_positive_numeral
        word.now
        ≡ true) × (v ≡ min (digits_value 10 word.now) (2 ^ 120))) }
{
    if word.is_empty() || word[0] == b'0' {
        return None;
    }
    value(word)
}

/// The natural number of a word.
pub fn natural(word: &[u8]) -> Result<u32, LogKind>
    ensures { MatchResult result (λ n. (n < 2 ^ 32) × (word.now ≡ decimal n))
        (λ kind. natural_fault word.now ≡ Some kind) }
{
    if is_word(word, b"0") {
        return Ok(0);
    }
    let Some(value) = positive_number(word) else {
        return Err(LogKind::BadNumber);
    };
    match u32::try_from(value) {
        Ok(n) => Ok(n),
        Err(_) => Err(LogKind::OutOfRange),
    }
}

/// A numerator's magnitude and a denominator, or `LIMIT` where one is not below that.
#[derive(Clone, Copy)]
struct Quotient {
    num: u128,
    den: u128,
}

/// The parts of a numerator alone.
fn whole_number(num: &[u8]) -> Option<Quotient>
    ensures { MatchOption result (is_positive_numeral num.now ≡ false) (λ q. (is_positive_numeral
        num.now
        ≡ true) × (q.num ≡ min (digits_value 10 num.now) (2 ^ 120)) × (q.den ≡ 1)) }
{
    let num = positive_number(num)?;
    Some(Quotient { num, den: 1 })
}

/// The parts of a numerator and a denominator above 1.
fn quotient_of(num: &[u8], den: &[u8]) -> Option<Quotient>
    ensures { let pieces = num.now ∷ den.now
        ∷ [] in MatchOption result (is_quotient pieces ≡ false) (λ q. (is_quotient pieces ≡ true)
        × (q.num ≡ min (numerator pieces) (2 ^ 120))
        × (q.den ≡ min (denominator pieces) (2 ^ 120))) }
{
    match (positive_number(num), positive_number(den)) {
        (Some(num), Some(den)) if den > 1 => Some(Quotient { num, den }),
        _ => None,
    }
}

/// The parts of a fraction's word without its minus.
fn parts_of(word: &[u8]) -> Option<Quotient>
    ensures { let pieces = slice_split (λ b. b == 47) word.now in MatchOption result
        (is_quotient pieces ≡ false) (λ q. (is_quotient pieces ≡ true)
        × (q.num ≡ min (numerator pieces) (2 ^ 120))
        × (q.den ≡ min (denominator pieces) (2 ^ 120))) }
{
    let (num, after) = first_piece(word, b'/');
    match after {
        Some(den) => quotient_of(num, den),
        None => whole_number(num),
    }
}

/// The whole number of this sign and magnitude.
fn signed_number(negative: bool, size: u128) -> i128
    requires { size < 2 ^ 120 }
    ensures { result ≡ signed negative size }
{
    if negative {
        -(size as i128)
    } else {
        size as i128
    }
}

/// The number of this numerator and denominator, where these are in lowest terms.
fn lowest_fraction(num: i128, den: i128) -> Option<Frac>
    requires num_small { unsigned_abs num < 2 ^ 120 }
    requires den_small { unsigned_abs den < 2 ^ 120 }
    requires positive { pos 0 <ℤ den }
    ensures { let lowest = gcd (unsigned_abs num) (unsigned_abs den) == 1 in MatchOption result
        (lowest ≡ false) (λ q. (lowest ≡ true) × (q.num ≡ num) × (pos q.den ≡ den)) }
{
    match Frac::of(num, den) {
        Some(q) if q.den() == den => Some(q),
        _ => None,
    }
}

/// The number of this sign, magnitude and denominator, where these are in lowest terms.
fn in_lowest_terms(negative: bool, num: u128, den: u128) -> Option<Frac>
    requires num_small { num < 2 ^ 120 }
    requires den_small { den < 2 ^ 120 }
    requires positive { 0 < den }
    ensures { MatchOption result ((gcd num den == 1) ≡ false)
        (λ q. ((gcd num den == 1) ≡ true) × (q.num ≡ signed negative num) × (q.den ≡ den)) }
{
    lowest_fraction(signed_number(negative, num), signed_number(false, den))
}

/// Whether a word begins with a minus, and what stands after that.
fn signed_word(word: &[u8]) -> (bool, &[u8])
    ensures sign { result.0 ≡ starts_with_minus word.now }
    ensures rest { result.1.now
        ≡ (if starts_with_minus word.now then drop 1 word.now else word.now) }
{
    if !word.is_empty() && word[0] == b'-' {
        (true, &word[1..])
    } else {
        (false, word)
    }
}

/// The fraction that a word writes, whole or as `NUMERATOR/DENOMINATOR` in lowest terms. Its parts
/// have a magnitude below 2^120 (`NumberWide`); any other word is a `BadNumber`.
pub fn fraction(word: &[u8]) -> Result<Frac, LogKind>
    ensures { MatchResult result (λ q. IsTrue (is_held q) × (word.now ≡ frac_text q))
        (λ kind. number_fault word.now ≡ Some kind) }
{
    if is_word(word, b"0") {
        return Ok(Frac::zero());
    }
    let (negative, magnitude) = signed_word(word);
    let Some(parts) = parts_of(magnitude) else {
        return Err(LogKind::BadNumber);
    };
    if parts.num.max(parts.den) >= LIMIT {
        return Err(LogKind::NumberWide);
    }
    match in_lowest_terms(negative, parts.num, parts.den) {
        Some(number) => Ok(number),
        None => Err(LogKind::BadNumber),
    }
}
