//! Numbers as whole numbers over a power of ten.
ghost use Rattle.std.specs.Prelude.{◌≡◌, ◌≤◌, ◌^◌, ◌/◌, ◌∷◌, ◌++◌, pos, ◌*ℤ◌, OnOk, IfSome, MatchOption, true, false};
ghost use Rattle.vlp_printer.specs.Decimal.{places as places_of, mantissa as mantissa_of, is_short as has_short_mantissa};

use exact_field::Field;
use frac128::Frac;
use itoa::Buffer;
use src_sink::{Bytes, NoMemory};

/// A whole number over a power of ten.
#[derive(Clone, Copy, Debug)]
pub(crate) struct Decimal {
    pub mantissa: i128,
    pub places: u32,
}

/// Whether a whole number has at most 36 digits, but for one 0 at its end.
fn is_short(mantissa: i128) -> bool
    ensures { result ≡ has_short_mantissa mantissa }
{
    let size = mantissa.unsigned_abs();
    size < 1_000_000_000_000_000_000_000_000_000_000_000_000
        || size % 10 == 0 && size < 10_000_000_000_000_000_000_000_000_000_000_000_000
}

/// The least number of places after the point that a number needs, where 36 are enough.
fn places(number: Frac) -> Option<u32>
    ensures value { result ≡ places_of number }
    ensures bound { IfSome result (λ k. k ≤ 36) }
{
    let den = number.den().unsigned_abs();
    let mut power: u128 = 1;
    for places in 0..37 {
        if power % den == 0 {
            return Some(places);
        }
        power *= 10;
    }
    None
}

/// The whole number that a number is over a power of ten, where it is short.
fn short_mantissa(number: Frac, places: u32) -> Option<i128>
    requires { places ≤ 36 }
    ensures { MatchOption result (has_short_mantissa (mantissa_of number places) ≡ false)
        (λ m. (has_short_mantissa m ≡ true) × (m ≡ mantissa_of number places)) }
{
    let scale = 10_u128.pow(places) / number.den().unsigned_abs();
    let mantissa = number.num().checked_mul(scale as i128)?;
    if is_short(mantissa) {
        Some(mantissa)
    } else {
        None
    }
}

impl Decimal {
    ghost use Rattle.vlp_printer.specs.Decimal.{decimal_of, number_text};

    /// The form in which a number is written, where there is one.
    pub(crate) fn of(number: Frac) -> Option<Decimal>
        ensures value { result ≡ decimal_of number }
        ensures short { IfSome result (λ d. has_short_mantissa d.mantissa ≡ true) }
    {
        let places = places(number)?;
        let mantissa = short_mantissa(number, places)?;
        Some(Decimal { mantissa, places })
    }

    /// Appends the word of a number, or nothing where it has none.
    pub(crate) fn put(number: Frac, into: &mut Bytes) -> Result<(), NoMemory>
        ensures { OnOk result (into.new ≡ into.old ++ number_text number) }
    {
        let Some(decimal) = Decimal::of(number) else {
            return Ok(());
        };
        into.append(Buffer::new().format(decimal.mantissa).as_bytes())?;
        if decimal.places == 0 {
            return Ok(());
        }
        into.append(b"e-".as_slice())?;
        into.append(Buffer::new().format(decimal.places).as_bytes())?;
        Ok(())
    }
}
