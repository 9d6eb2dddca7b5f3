//! Tiny fractions over all pairs of a sample, against plain arithmetic on whole numbers.

use super::fractions::answer;
use exact_field::{Field, Left};
use frac128::{Frac, Tiny, frac_of};

const NUMS: [i64; 24] = [
    -127, -126, -100, -64, -61, -60, -12, -7, -6, -2, -1, 0, 1, 2, 3, 4, 8, 12, 30, 63, 64, 90,
    126, 127,
];

const DENS: [i64; 15] = [1, 2, 3, 4, 5, 6, 7, 12, 30, 60, 63, 64, 100, 126, 127];

/// The greatest common divisor of small numbers, by Euclid.
fn gcd(a: u64, b: u64) -> u64 {
    let (mut a, mut b) = (a, b);
    for _ in 0..64 {
        match a.checked_rem(b) {
            Some(rest) => (a, b) = (b, rest),
            None => return a,
        }
    }
    a
}

/// Whether n / d has in lowest terms a numerator or a denominator from 128 on.
fn is_wide(n: i64, d: i64) -> bool {
    let (n, d) = (n.unsigned_abs(), d.unsigned_abs());
    let most = gcd(n, d).wrapping_mul(127);
    n > most || d > most
}

/// Whether the answer is n / d, or none where that is not held.
fn is_exact(answer: Result<Tiny, Left<Tiny>>, n: i64, d: i64) -> bool {
    match answer {
        Ok(x) => {
            let across = i128::from(n).wrapping_mul(x.den());
            d != 0 && x.num().wrapping_mul(i128::from(d)) == across
        }
        Err(_) => is_wide(n, d),
    }
}

/// A sum, a difference, a product or a quotient of a / b and c / d, with a denominator that is 0
/// for a quotient by 0 alone.
fn exact_parts(operation: i128, a: i64, b: i64, c: i64, d: i64) -> (i64, i64) {
    let (left, right) = (a.wrapping_mul(d), c.wrapping_mul(b));
    let den = b.wrapping_mul(d);
    match operation {
        0 => (left.wrapping_add(right), den),
        1 => (left.wrapping_sub(right), den),
        2 => (a.wrapping_mul(c), den),
        _ => (left, b.wrapping_mul(c)),
    }
}

/// Whether an operation on a / b and c / d is exact.
fn is_right(operation: i128, x: Tiny, y: Tiny, a: i64, b: i64, c: i64, d: i64) -> bool {
    let (n, m) = exact_parts(operation, a, b, c, d);
    match answer(operation, x, y) {
        Some(answer) => is_exact(answer, n, m),
        None => m == 0,
    }
}

/// Whether the order and the equality of a / b and c / d are those of the cross products.
fn are_ordered(x: Tiny, y: Tiny, a: i64, b: i64, c: i64, d: i64) -> bool {
    let (left, right) = (a.wrapping_mul(d), c.wrapping_mul(b));
    x.cmp(&y) == left.cmp(&right) && (x == y) == (left == right)
}

/// A tiny number, which is the same as a fraction.
fn make_tiny(num: i64, den: i64) -> Option<Tiny> {
    let (num, den) = (i128::from(num), i128::from(den));
    let x = Tiny::of(num, den)?;
    let is_same = Some(frac_of(x)) == Frac::of(num, den);
    is_same.then_some(x)
}

/// Whether all operations on a / b and c / d, and their order, are as they should be.
fn agrees(a: i64, b: i64, c: i64, d: i64) -> bool {
    let (Some(x), Some(y)) = (make_tiny(a, b), make_tiny(c, d)) else {
        return false;
    };
    for operation in &[0, 1, 2, 3] {
        if !is_right(*operation, x, y, a, b, c, d) {
            return false;
        }
    }
    are_ordered(x, y, a, b, c, d)
}

#[test]
fn tiny_fractions_are_exact_over_all_pairs(rt: HostRuntime) {
    for a in &NUMS {
        for b in &DENS {
            for c in &NUMS {
                for d in &DENS {
                    assert!(rt; agrees(*a, *b, *c, *d), "{a}/{b} and {c}/{d}");
                }
            }
        }
    }
}

#[test]
fn tiny_fractions_end_at_127(rt: HostRuntime) {
    for (num, den) in [(128, 1), (1, 128), (1, -1), (1, 0)] {
        assert!(rt; Tiny::of(num, den).is_none());
    }
    assert!(rt; Tiny::whole(128).is_none() && Tiny::whole(127) == Tiny::of(127, 1));
}
