//! Whether a number is at, above or below 0.

ghost use Rattle.std.specs.Prelude.{◌≡◌, ◌↔◌, IsTrue};
ghost use Rattle.exact_field.specs.Order.{same_ℚ};
ghost use Rattle.exact_field.specs.Rational.{zero_ℚ, lt_ℚ, ◌<ℚ◌};

use crate::field::Field;

/// Whether a number is 0.
pub fn is_zero<F: Field>(x: F) -> bool
    ensures test { result ≡ same_ℚ (F.value x) zero_ℚ }
    ensures fact { IsTrue result ↔ (F.value x ≡ zero_ℚ) }
{
    x.sign() == 0
}

/// Whether a number is above 0.
pub fn is_positive<F: Field>(x: F) -> bool
    ensures test { result ≡ lt_ℚ zero_ℚ (F.value x) }
    ensures fact { IsTrue result ↔ (zero_ℚ <ℚ F.value x) }
{
    x.sign() == 1
}

/// Whether a number is below 0.
pub fn is_negative<F: Field>(x: F) -> bool
    ensures test { result ≡ lt_ℚ (F.value x) zero_ℚ }
    ensures fact { IsTrue result ↔ (F.value x <ℚ zero_ℚ) }
{
    x.sign() == -1
}
