//! Geometric duality: couplings, and the rows of points and directions, with a duality vector of
//! ones.

use super::texts::{begins, numbers, put_left, put_numbers, put_places, sum_text};
use exact_field::Field;
use frac128::{Frac, Tiny};
use geo_duality::{ExchangeFault, exchange, phi};
use src_sink::{Bytes, Items, NoMemory};
use std::alloc::Global;

/// Over fractions.
const HELD: &str = "\
point; 0 4; row -4 -1 4
direction; -1 1; row -2 0 1
coupling; 0 4; 1/4 3; 1 1; sum 0
coupling; -6 6; 0 4; 1 1; sum 2";

/// Over tiny numbers.
const GIVEN_UP: &str = "\
coupling; 12 1; 12 1; 1 1; left mul 12 12
coupling; 1 100; 3 1; 1 1; left mul 100 -2
point; 1 -100 100; left 4 sub -100 100";

/// The row of a point or a direction of two or three entries.
fn exchange_row<F: Field>(
    alloc: Global,
    y: &[F],
    t: bool,
) -> Option<Result<Items<F>, ExchangeFault<F>>> {
    let one = F::one();
    match y.len() {
        2 => Some(exchange(alloc, y, t, &[one, one])),
        3 => Some(exchange(alloc, y, t, &[one, one, one])),
        _ => None,
    }
}

/// The text of a row.
fn row_text<F: Field>(
    alloc: Global,
    row: Result<Items<F>, ExchangeFault<F>>,
) -> Result<Bytes, NoMemory> {
    let mut text = Bytes::new(alloc);
    match row {
        Ok(row) => {
            text.append(b"row")?;
            put_numbers(&mut text, row.as_slice())?;
        }
        Err(ExchangeFault::Left { step, left }) => {
            text.append(b"left")?;
            put_places(&mut text, &[u32::try_from(step).unwrap_or(0)])?;
            put_left(&mut text, &left)?;
        }
        Err(ExchangeFault::NoMemory) => return Err(NoMemory),
    }
    Ok(text)
}

/// What `phi` answers.
fn coupling_text<F: Field>(alloc: Global, y: &[F], star: &[F], c: &[F]) -> Option<Bytes> {
    if y.is_empty() || star.len() != y.len() || c.len() != y.len() {
        return None;
    }
    sum_text(alloc, phi(y, star, c)).ok()
}

/// What the call of a line answers.
fn answer<F: Field>(alloc: Global, call: &[&str]) -> Option<Bytes> {
    match call {
        [name, y] => {
            let y = numbers::<F>(alloc, y)?;
            row_text(alloc, exchange_row(alloc, y.as_slice(), *name == "point")?).ok()
        }
        [_, y, star, c] => {
            let (y, star) = (numbers::<F>(alloc, y)?, numbers(alloc, star)?);
            let c = numbers(alloc, c)?;
            coupling_text(alloc, y.as_slice(), star.as_slice(), c.as_slice())
        }
        _ => None,
    }
}

/// Whether the answer is the line's.
fn agrees<F: Field>(alloc: Global, line: &str) -> Option<bool> {
    let (call, expected) = line.rsplit_once(';')?;
    let words: Vec<&str> = call.split(';').collect(alloc).ok()?;
    Some(begins(&answer::<F>(alloc, words.as_slice())?, expected))
}

#[test]
fn points_and_directions_are_coupled(rt: HostRuntime) {
    for line in HELD.lines() {
        assert!(rt; agrees::<Frac>(rt.alloc(), line) == Some(true), "{line}");
    }
    for line in GIVEN_UP.lines() {
        assert!(rt; agrees::<Tiny>(rt.alloc(), line) == Some(true), "{line}");
    }
}
