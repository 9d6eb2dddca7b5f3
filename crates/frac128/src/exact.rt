//! Quotients by numbers that are known to divide.
ghost use Rattle.std.specs.Prelude.{◌≡◌, ◌*◌, ◌/◌, ◌%◌, ◌^◌, ◌<◌, ◌≤◌, ℕ};
ghost use Rattle.std.specs.Int.{◌∣◌};

use crate::size::WORD;

/// A step of Newton's: of an inverse modulo a power of 2 it makes one modulo the square.
fn refine_inverse(odd: u64, inverse: u64) -> u64
    ensures { (k : ℕ) → 0 < k → 2 * k ≤ 64 → odd * inverse % 2 ^ k ≡ 1
        → odd * result % 2 ^ (2 * k) ≡ 1 }
{
    inverse.wrapping_mul(2u64.wrapping_sub(odd.wrapping_mul(inverse)))
}

/// The inverse of an odd number modulo 2^64, from the number itself, which is its inverse modulo
/// 2^3, by inverses modulo 2^6, 2^12, 2^24 and 2^48.
fn word_inverse(odd: u64) -> u64
    requires { odd % 2 ≡ 1 }
    ensures { odd * result % 2 ^ 64 ≡ 1 }
{
    let of_6 = refine_inverse(odd, odd);
    let of_12 = refine_inverse(odd, of_6);
    let of_24 = refine_inverse(odd, of_12);
    let of_48 = refine_inverse(odd, of_24);
    refine_inverse(odd, of_48)
}

/// The inverse of an odd number modulo 2^128.
fn inverse(odd: u128) -> u128
    requires { odd % 2 ≡ 1 }
    ensures { odd * result % 2 ^ 128 ≡ 1 }
{
    let low = u128::from(word_inverse((odd % (1 << 64)) as u64));
    low.wrapping_mul(2u128.wrapping_sub(odd.wrapping_mul(low)))
}

/// The quotient by a number that divides: above words by a product modulo 2^128.
pub(crate) fn exact_quotient(x: u128, y: u128) -> u128
    requires positive { 0 < y }
    requires divides { y ∣ x }
    ensures { result ≡ x / y }
{
    if y == 1 {
        x
    } else if x <= WORD && y <= WORD {
        u128::from(x as u64 / y as u64)
    } else {
        let place = y.trailing_zeros();
        (x >> place).wrapping_mul(inverse(y >> place))
    }
}
