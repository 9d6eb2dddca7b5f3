//! The order of two fractions, by floor quotients and by reciprocals of remainders.
ghost use Rattle.std.specs.Prelude.{◌≡◌, ◌+◌, ◌*◌, ◌^◌, ◌<◌, ◌≤◌, ℕ};
ghost use Rattle.std.specs.Ordering.{nat_cmp};
ghost use Rattle.frac128.specs.Floors.{FloorsSay};

use crate::gcd::divide;
use crate::size::WORD;
use std::cmp::Ordering;

/// How often the divisors are taken from both numbers together before one is divided.
const FEW: u32 = 4;

/// What the floor quotients of two fractions say.
enum Floors {
    /// They differ, and so decide the order.
    Differ(Ordering),
    /// They are equal, and these remainders are left.
    Same(u128, u128),
}

/// The floor quotients of `a / b` and `c / d`, neither of which is less than 1: one division, and
/// the other quotient is only compared.
fn divide_alike(a: u128, b: u128, c: u128, d: u128) -> Floors
    requires b_positive { 0 < b }
    requires d_positive { 0 < d }
    ensures { FloorsSay a b c d result }
{
    let (whole, rest) = divide(a, b);
    let Some(taken) = whole.checked_mul(d) else {
        return Floors::Differ(Ordering::Greater);
    };
    if c < taken {
        return Floors::Differ(Ordering::Greater);
    }
    let other_rest = c - taken;
    if other_rest < d {
        Floors::Same(rest, other_rest)
    } else {
        Floors::Differ(Ordering::Less)
    }
}

/// What is left of a and c after b and d are taken from them equally often.
fn lower_both(a: u128, b: u128, c: u128, d: u128) -> (u128, u128)
    ensures { (k : ℕ) × (k * b + result.0 ≡ a) × (k * d + result.1 ≡ c) }
{
    let mut left = a;
    let mut right = c;
    'steps: for _ in 0..FEW {
        if left < b || right < d {
            break;
        }
        left -= b;
        right -= d;
    }
    (left, right)
}

/// The floor quotients of `a / b` and `c / d`.
fn floor_quotients(a: u128, b: u128, c: u128, d: u128) -> Floors
    requires b_positive { 0 < b }
    requires d_positive { 0 < d }
    ensures { FloorsSay a b c d result }
{
    let (left, right) = lower_both(a, b, c, d);
    match (left < b, right < d) {
        (true, true) => Floors::Same(left, right),
        (true, false) => Floors::Differ(Ordering::Less),
        (false, true) => Floors::Differ(Ordering::Greater),
        (false, false) => divide_alike(left, b, right, d),
    }
}

/// Compares `a / b` with `c / d`. Where the quotients are equal, the remainders decide: `a / b` is
/// to `c / d` as `d / r` is to `b / s`, for the remainders r of `a / b` and s of `c / d`. In words
/// the products decide.
pub(crate) fn compare(a: u128, b: u128, c: u128, d: u128) -> Ordering
    requires b_positive { 0 < b }
    requires d_positive { 0 < d }
    ensures { result ≡ nat_cmp (a * d) (c * b) }
{
    let mut left = (a, b);
    let mut right = (c, d);
    'turns: loop {
        if left.0 <= WORD && left.1 <= WORD && right.0 <= WORD && right.1 <= WORD {
            return (left.0 * right.1).cmp(&(right.0 * left.1));
        }
        match floor_quotients(left.0, left.1, right.0, right.1) {
            Floors::Differ(order) => return order,
            Floors::Same(left_rest, right_rest) => {
                if left_rest == 0 || right_rest == 0 {
                    return left_rest.cmp(&right_rest);
                }
                let turned = (right.1, right_rest);
                right = (left.1, left_rest);
                left = turned;
            }
        }
    }
}
