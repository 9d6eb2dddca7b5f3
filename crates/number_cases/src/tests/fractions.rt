//! Operations with the answers of another implementation of exact fractions, and how fractions are
//! made.

use super::rows::{COUNT, ROWS};
use exact_field::{Field, Left, Op};
use frac128::{Frac, FracFault};
use std::cmp::Ordering;
use tier_frac::Tier;

/// The numbers of a line.
fn numbers(line: &str) -> Option<[i128; 7]> {
    let mut numbers = [0i128; 7];
    let mut words = line.split_ascii_whitespace();
    for number in &mut numbers {
        *number = words.next()?.parse().ok()?;
    }
    Some(numbers)
}

/// The numerator and the denominator of what two numbers make, or what a line has where they make
/// none.
fn make_parts(num: i128, den: i128) -> (i128, i128) {
    match Frac::new(num, den) {
        Ok(x) => (x.num(), x.den()),
        Err(FracFault::ZeroDen) => (0, 0),
        Err(FracFault::Wide) => (1, 0),
    }
}

/// How two numbers compare.
fn order<F: Field>(a: F, b: F) -> (i128, i128) {
    match a.cmp(&b) {
        Ordering::Less => (-1, 1),
        Ordering::Equal => (0, 1),
        Ordering::Greater => (1, 1),
    }
}

/// The answer of an operation, and none for a quotient by 0.
pub fn answer<F: Field>(operation: i128, a: F, b: F) -> Option<Result<F, Left<F>>> {
    match operation {
        0 => Some(a.add(b)),
        1 => Some(a.sub(b)),
        2 => Some(a.mul(b)),
        _ if b == F::zero() => None,
        _ => Some(a.div(b)),
    }
}

/// The operation of a line.
fn op(operation: i128) -> Op {
    match operation {
        0 => Op::Add,
        1 => Op::Sub,
        2 => Op::Mul,
        _ => Op::Div,
    }
}

/// The numerator and the denominator of an answer, and 0 over 0 where it is not held and the
/// operands are told.
fn tell_parts<F: Field>(operation: i128, a: F, b: F) -> Option<(i128, i128)> {
    match answer(operation, a, b)? {
        Ok(x) => Some((x.num(), x.den())),
        Err(left) => {
            let is_told = left.op == op(operation) && left.a == a && left.b == b;
            is_told.then_some((0, 0))
        }
    }
}

/// What a line is to have, by its operation and its operands.
fn outcome<F: Field>(operation: i128, a: i128, b: i128, c: i128, d: i128) -> Option<(i128, i128)> {
    match operation {
        5 => Some(make_parts(a, b)),
        4 => Some(order(F::of(a, b)?, F::of(c, d)?)),
        _ => tell_parts(operation, F::of(a, b)?, F::of(c, d)?),
    }
}

/// Whether the answer is the line's.
fn agrees<F: Field>(line: &str) -> Option<bool> {
    let [operation, a, b, c, d, num, den] = numbers(line)?;
    Some(outcome::<F>(operation, a, b, c, d)? == (num, den))
}

#[test]
fn answers_are_those_of_another_implementation(rt: HostRuntime) {
    assert_eq!(rt; ROWS.lines().count(), COUNT);
    for line in ROWS.lines() {
        assert!(rt; agrees::<Frac>(line) == Some(true), "{line}");
        assert!(rt; agrees::<Tier>(line) == Some(true), "{line}");
    }
}

/// Whether a number comes back from the size that it has, and is kept in words exactly where both
/// parts fit.
fn is_kept(num: i128, den: i128, is_small: bool) -> bool {
    match Frac::of(num, den) {
        Some(x) => {
            let tier = Tier::from_frac(x);
            tier.frac() == x && tier.is_small() == is_small && Some(tier) == Tier::of(num, den)
        }
        None => false,
    }
}

#[test]
fn words_hold_what_fits(rt: HostRuntime) {
    let end = 1 << 63;
    assert!(rt;
        is_kept(end - 1, 1, true) && is_kept(1, end - 1, true) && is_kept(-end, end - 1, true)
    );
    assert!(rt; is_kept(end, 1, false) && is_kept(1, end, false) && is_kept(-end - 1, 1, false));
    assert!(rt;
        is_kept(2 * end, 2, false) && is_kept(2 * end - 2, 2, true) && is_kept(0, end, true)
    );
    assert!(rt;
        Tier::whole(i64::MIN).is_some_and(|least| least.is_small() && !least.neg().is_small())
    );
}
