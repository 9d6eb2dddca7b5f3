//! The greatest common divisor, quotients and products, in short ways where words hold the numbers.
ghost use Rattle.std.specs.Prelude.{◌≡◌, ◌≢◌, ◌+◌, ◌-◌, ◌*◌, max, min, ◌/◌, ◌%◌, ◌^◌, ◌<◌, ◌≤◌, ℕ, SomeIff};
ghost use Rattle.std.specs.Int.{IsGcd};

use crate::size::{LIMIT, WORD, bits};

/// The number without its power of 2.
fn odd_part(n: u64) -> u64
    requires { 0 < n }
    ensures odd { result % 2 ≡ 1 }
    ensures power { (k : ℕ) × (2 ^ k * result ≡ n) }
{
    n >> n.trailing_zeros()
}

/// The difference without its power of 2. Its zeros are counted in the wrapping difference, which
/// has as many and is known before the greater number is.
fn odd_difference(x: u64, y: u64) -> u64
    requires { x ≢ y }
    ensures odd { result % 2 ≡ 1 }
    ensures power { (k : ℕ) × (2 ^ k * result ≡ max x y - min x y) }
{
    let zeros = x.wrapping_sub(y).trailing_zeros();
    (x.max(y) - x.min(y)) >> zeros
}

fn gcd_odd(a: u64, b: u64) -> u64
    requires a_odd { a % 2 ≡ 1 }
    requires b_odd { b % 2 ≡ 1 }
    ensures { IsGcd a b result }
{
    let mut x = a;
    let mut y = b;
    while x != y {
        let less = x.min(y);
        x = odd_difference(x, y);
        y = less;
    }
    x
}

/// The greatest common divisor, by differences of odd numbers.
pub fn gcd_words(a: u64, b: u64) -> u64
    ensures { IsGcd a b result }
{
    if a == 1 || b == 1 {
        return 1;
    }
    if a == 0 {
        return b;
    }
    if b == 0 {
        return a;
    }
    let i = a.trailing_zeros();
    let j = b.trailing_zeros();
    gcd_odd(a >> i, b >> j) << i.min(j)
}

/// The greatest common divisor with a word, by one remainder and in words from there.
fn gcd_with_word(great: u128, less: u128) -> u128
    requires { less < 2 ^ 64 }
    ensures { IsGcd great less result }
{
    if less == 0 {
        return great;
    }
    u128::from(gcd_words(less as u64, remainder(great, less) as u64))
}

/// The number without its power of 2, which is mostly that of its low word.
fn wide_odd_part(n: u128) -> u128
    requires { 0 < n }
    ensures odd { result % 2 ≡ 1 }
    ensures power { (k : ℕ) × (2 ^ k * result ≡ n) }
{
    let low = (n % (1 << 64)) as u64;
    if low == 0 {
        u128::from(odd_part((n >> 64) as u64))
    } else {
        n >> low.trailing_zeros()
    }
}

/// The greatest common divisor of odd numbers, by differences until the lesser number is a word.
fn gcd_wide_odd(a: u128, b: u128) -> u128
    requires a_odd { a % 2 ≡ 1 }
    requires b_odd { b % 2 ≡ 1 }
    ensures { IsGcd a b result }
{
    let mut x = a;
    let mut y = b;
    'turns: while x != y {
        let less = x.min(y);
        let great = x.max(y);
        if less <= WORD {
            return gcd_with_word(great, less);
        }
        x = wide_odd_part(great - less);
        y = less;
    }
    x
}

/// The greatest common divisor of two numbers above words.
fn gcd_wide(a: u128, b: u128) -> u128
    requires a_positive { 0 < a }
    requires b_positive { 0 < b }
    ensures { IsGcd a b result }
{
    let i = a.trailing_zeros();
    let j = b.trailing_zeros();
    gcd_wide_odd(a >> i, b >> j) << i.min(j)
}

/// The greatest common divisor.
pub fn gcd(a: u128, b: u128) -> u128
    ensures gcd { IsGcd a b result }
    ensures positive { 0 < b → 0 < result }
{
    if b == 1 {
        1
    } else if b <= WORD {
        gcd_with_word(a, b)
    } else if a <= WORD {
        gcd_with_word(b, a)
    } else {
        gcd_wide(a, b)
    }
}

/// The quotient, without a division by 1.
pub fn quotient_words(x: u64, y: u64) -> u64
    requires { 0 < y }
    ensures { result ≡ x / y }
{
    if y == 1 { x } else { x / y }
}

/// The quotient, without a wide division where words hold both numbers.
pub fn quotient(x: u128, y: u128) -> u128
    requires { 0 < y }
    ensures { result ≡ x / y }
{
    if y == 1 {
        x
    } else if x <= WORD && y <= WORD {
        u128::from(x as u64 / y as u64)
    } else {
        x / y
    }
}

/// The quotient and the remainder, without a division where the quotient is small, and without a
/// wide one where words hold both numbers.
pub(crate) fn divide(x: u128, y: u128) -> (u128, u128)
    requires { 0 < y }
    ensures quotient { result.0 ≡ x / y }
    ensures rest { result.1 ≡ x % y }
    ensures whole { result.0 * y + result.1 ≡ x }
    ensures below { result.1 < y }
{
    if x < y {
        return (0, x);
    }
    let first = x - y;
    if first < y {
        return (1, first);
    }
    let second = first - y;
    if second < y {
        return (2, second);
    }
    let whole = quotient(x, y);
    (whole, x - whole * y)
}

/// The remainder of `x` by `y`.
pub(crate) fn remainder(x: u128, y: u128) -> u128
    requires { 0 < y }
    ensures { result ≡ x % y }
{
    let (_, rest) = divide(x, y);
    rest
}

/// `x y + z` where it is below 2^120.
pub(crate) fn product_plus(x: u128, y: u128, z: u128) -> Option<u128>
    requires { z < 2 ^ 120 }
    ensures { SomeIff result (x * y + z < 2 ^ 120) (x * y + z) }
{
    if x == 0 || y == 0 {
        return Some(z);
    }
    if bits(x) + bits(y) > 126 {
        return None;
    }
    let sum = x * y + z;
    if sum < LIMIT { Some(sum) } else { None }
}

/// The product where it is below 2^120.
pub(crate) fn product(x: u128, y: u128) -> Option<u128>
    ensures { SomeIff result (x * y < 2 ^ 120) (x * y) }
{
    product_plus(x, y, 0)
}
