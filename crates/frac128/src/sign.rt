//! Signs and magnitudes.
ghost use Rattle.std.specs.Prelude.{◌≡◌, ◌<◌, ◌^◌};
ghost use Rattle.frac128.specs.Signed.{differ, is_below_zero, signed};

/// Whether one of the two numbers is negative and the other is not.
pub fn differ_in_sign(a: i128, b: i128) -> bool
    ensures { result ≡ differ (is_below_zero a) (is_below_zero b) }
{
    (a < 0) != (b < 0)
}

/// The number of this sign and magnitude.
pub fn signed_number(negative: bool, size: u128) -> i128
    requires { size < 2 ^ 127 }
    ensures { result ≡ signed negative size }
{
    let number = size as i128;
    if negative { -number } else { number }
}
