//! The sum of two products, carried as quotient and remainder by a third number.
ghost use Rattle.std.specs.Prelude.{◌≡◌, ◌+◌, ◌*◌, ◌^◌, ◌<◌, ◌≤◌, pos, ◌+ℤ◌, ◌*ℤ◌, unsigned_abs, MatchOption};
ghost use Rattle.std.specs.Bool.{OnTrue};
ghost use Rattle.frac128.specs.Mixed.{mixed_value, IsMixed, IsTotal};

use crate::gcd::divide;
use crate::size::bits;

/// A quotient of this magnitude is too far from 0 for what is still to come.
const FAR: u128 = 1 << 122;

/// A whole number by its quotient and its remainder by a divisor that is passed along.
#[derive(Clone, Copy)]
struct Mixed {
    whole: i128,
    rest: u128,
}

/// A whole number by its sign and its magnitude, and that by quotient and remainder by a divisor
/// that is passed along.
#[derive(Clone, Copy)]
pub(crate) struct Total {
    pub(crate) negative: bool,
    pub(crate) whole: u128,
    pub(crate) rest: u128,
}

impl Mixed {
    /// Divides with a remainder that is not negative.
    fn of(number: i128, divisor: u128) -> Mixed
        requires positive { 0 < divisor }
        requires small { unsigned_abs number < 2 ^ 120 }
        ensures value { mixed_value divisor result ≡ number }
        ensures rest { result.rest < divisor }
        ensures size { unsigned_abs result.whole ≤ unsigned_abs number }
    {
        let (size, rest) = divide(number.unsigned_abs(), divisor);
        let whole = size as i128;
        if number >= 0 {
            Mixed { whole, rest }
        } else if rest == 0 {
            Mixed {
                whole: -whole,
                rest: 0,
            }
        } else {
            Mixed {
                whole: -whole - 1,
                rest: divisor - rest,
            }
        }
    }

    fn total(self, divisor: u128) -> Total
        requires rest { self.rest < divisor }
        requires small { unsigned_abs self.whole < 2 ^ 122 }
        ensures { IsTotal divisor (mixed_value divisor self) result }
    {
        let size = self.whole.unsigned_abs();
        if self.whole >= 0 {
            Total {
                negative: false,
                whole: size,
                rest: self.rest,
            }
        } else if self.rest == 0 {
            Total {
                negative: true,
                whole: size,
                rest: 0,
            }
        } else {
            Total {
                negative: true,
                whole: size - 1,
                rest: divisor - self.rest,
            }
        }
    }
}

/// What is carried: the sum so far, and what is left of the two multipliers below the place.
#[derive(Clone, Copy)]
struct Carry {
    sum: Mixed,
    left: u128,
    right: u128,
}

/// A sum and a number times a digit of four bits, or times 16.
fn plus_scaled(sum: i128, number: i128, digit: u128) -> i128
    requires sum_small { unsigned_abs sum < 2 ^ 125 + 2 ^ 7 }
    requires number_small { unsigned_abs number < 2 ^ 122 }
    requires digit_small { digit ≤ 16 }
    ensures value { result ≡ sum +ℤ number *ℤ pos digit }
    ensures size { unsigned_abs result ≤ unsigned_abs sum + 16 * unsigned_abs number }
{
    sum + number * digit as i128
}

/// The upper four bits of a number, and what is left of it.
fn digit(number: u128, place: u32) -> (u128, u128)
    requires place_small { place ≤ 116 }
    requires below { number < 2 ^ (place + 4) }
    ensures value { result.0 * 2 ^ place + result.1 ≡ number }
    ensures digit_small { result.0 < 16 }
    ensures left_below { result.1 < 2 ^ place }
{
    (number >> place, number % (1 << place))
}

impl Carry {
    /// Multiplies the sum by 16, and takes a digit of four bits of each multiplier.
    fn advance(self, first: Mixed, second: Mixed, place: u32, divisor: u128) -> Carry
        requires place_small { place ≤ 116 }
        requires divisor_small { divisor < 2 ^ 120 }
        requires sum_rest { self.sum.rest < divisor }
        requires first_rest { first.rest < divisor }
        requires second_rest { second.rest < divisor }
        requires sum_small { unsigned_abs self.sum.whole < 2 ^ 122 }
        requires first_small { unsigned_abs first.whole < 2 ^ 120 }
        requires second_small { unsigned_abs second.whole < 2 ^ 120 }
        requires left_below { self.left < 2 ^ (place + 4) }
        requires right_below { self.right < 2 ^ (place + 4) }
        ensures value { pos (2 ^ place) *ℤ mixed_value divisor result.sum +ℤ mixed_value divisor
            first *ℤ pos result.left +ℤ mixed_value divisor second *ℤ pos result.right
            ≡ pos (2 ^ (place + 4)) *ℤ mixed_value divisor self.sum +ℤ mixed_value divisor first *ℤ
            pos self.left +ℤ mixed_value divisor second *ℤ pos self.right }
        ensures rest { result.sum.rest < divisor }
        ensures left { result.left < 2 ^ place }
        ensures right { result.right < 2 ^ place }
    {
        let (x, left) = digit(self.left, place);
        let (y, right) = digit(self.right, place);
        let rests = self.sum.rest * 16 + first.rest * x + second.rest * y;
        let (carried, rest) = divide(rests, divisor);
        let with_first = plus_scaled(carried as i128, first.whole, x);
        let with_both = plus_scaled(with_first, second.whole, y);
        let whole = plus_scaled(with_both, self.sum.whole, 16);
        Carry {
            sum: Mixed { whole, rest },
            left,
            right,
        }
    }
}

/// `a x + c y` by quotient and remainder, or `None` where its magnitude is at least 2^120 times the
/// divisor. Both products are carried together, four bits of `x` and `y` a turn from the top, and
/// the carrying ends where the sum so far is too far from 0 for the bits that are still to come.
fn divide_products(a: i128, x: u128, c: i128, y: u128, divisor: u128) -> Option<Mixed>
    requires positive { 0 < divisor }
    requires divisor_small { divisor < 2 ^ 120 }
    requires a_small { unsigned_abs a < 2 ^ 120 }
    requires c_small { unsigned_abs c < 2 ^ 120 }
    requires x_small { x < 2 ^ 120 }
    requires y_small { y < 2 ^ 120 }
    ensures { MatchOption result (2 ^ 120 * divisor ≤ unsigned_abs (a *ℤ pos x +ℤ c *ℤ pos y))
        (IsMixed divisor (a *ℤ pos x +ℤ c *ℤ pos y)) }
{
    let first = Mixed::of(a, divisor);
    let second = Mixed::of(c, divisor);
    let mut carry = Carry {
        sum: Mixed { whole: 0, rest: 0 },
        left: x,
        right: y,
    };
    let mut turns = bits(x.max(y)).div_ceil(4);
    while turns > 0 {
        turns -= 1;
        carry = carry.advance(first, second, 4 * turns, divisor);
        if carry.sum.whole.unsigned_abs() >= FAR {
            return None;
        }
    }
    Some(carry.sum)
}

impl Total {
    fn of(number: i128, divisor: u128) -> Total
        requires { 0 < divisor }
        ensures { IsTotal divisor number result }
    {
        let (whole, rest) = divide(number.unsigned_abs(), divisor);
        Total {
            negative: number < 0,
            whole,
            rest,
        }
    }
}

/// Whether the bits of the two numbers show that the product is below 2^126.
fn is_short(x: u128, y: u128) -> bool
    requires x_small { x < 2 ^ 120 }
    requires y_small { y < 2 ^ 120 }
    ensures { OnTrue result (x * y < 2 ^ 126) }
{
    bits(x) + bits(y) <= 126
}

/// `a x + c y` by sign, quotient and remainder, or `None` where its magnitude is at least 2^120
/// times the divisor: without carrying where the products are short.
pub(crate) fn numerator(a: i128, x: u128, c: i128, y: u128, divisor: u128) -> Option<Total>
    requires positive { 0 < divisor }
    requires divisor_small { divisor < 2 ^ 120 }
    requires a_small { unsigned_abs a < 2 ^ 120 }
    requires c_small { unsigned_abs c < 2 ^ 120 }
    requires x_small { x < 2 ^ 120 }
    requires y_small { y < 2 ^ 120 }
    ensures { MatchOption result (2 ^ 120 * divisor ≤ unsigned_abs (a *ℤ pos x +ℤ c *ℤ pos y))
        (IsTotal divisor (a *ℤ pos x +ℤ c *ℤ pos y)) }
{
    if is_short(a.unsigned_abs(), x) && is_short(c.unsigned_abs(), y) {
        Some(Total::of(a * x as i128 + c * y as i128, divisor))
    } else {
        Some(divide_products(a, x, c, y, divisor)?.total(divisor))
    }
}
