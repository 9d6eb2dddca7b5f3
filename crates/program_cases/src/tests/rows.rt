//! Rows: sums and products, independent rows, inverses, complements, and each step that can
//! overflow.

use super::texts::{
    begins, number, numbers, put_fault, put_numbers, put_places, put_rows, rows, sum_text,
};
use exact_field::Field;
use frac128::{Frac, Tiny};
use lin_rows::{
    Indep, Inverse, RowFault, Rows, combine, complement, dot, find_independent, invert, scale,
};
use src_sink::{Bytes, Items, NoMemory};
use std::alloc::Global;

/// Over fractions.
const HELD: &str = "\
independent; 1/2 1/2, 0 1; basis 1 2
invert; 1/2 1/2, 0 1; inverse 2 -1, 0 1,
independent; 0 1; orthogonal 1 0
invert; 0 1, 0 1; orthogonal 1 0
complement; 1/2 1/2; complement 1 -1, end
complement; 1 2, 2 4, -1/2 -1; complement 1 -1/2, end
complement; -2 1 1; complement 1 0 2, 0 1 -1, end
complement; 1 0, 0 1, 1 1; complement end
complement of no rows; 2; complement 1 0, 0 1, end
combine; 1 0; 1/4; -4 4; list 0 1
scale; 0 1; 4; list 0 4
dot; 1 4; 4 4; sum 20";

/// Over tiny numbers.
const GIVEN_UP: &str = "\
independent; 100 1/2; left 1 2 1 div 100 1/2
independent; 12 1, 1 12; left 1 2 2 mul 12 12
complement; 12 1, 1 12; left 1 2 2 mul 12 12
independent; 10 1, -100 10; left 1 2 3 sub -100 100
combine; 1 100; 12; 1 3; left 0 2 3 add 100 36
scale; 1 12; 12; left 0 2 2 mul 12 12
dot; 12 0 12; 6 100 6; left add 72 72";

/// What `find_independent` answers.
fn independent_text<F: Field>(alloc: Global, rows: &Rows<F>) -> Result<Bytes, NoMemory> {
    let mut text = Bytes::new(alloc);
    match find_independent(alloc, rows, rows.width()) {
        Ok(Indep::Basis(basis)) => {
            text.append(b"basis")?;
            put_places(&mut text, basis.as_slice())?;
        }
        Ok(Indep::Orthogonal(vector)) => {
            text.append(b"orthogonal")?;
            put_numbers(&mut text, vector.as_slice())?;
        }
        Err(fault) => put_fault(&mut text, &fault)?,
    }
    Ok(text)
}

/// What `invert` answers.
fn invert_text<F: Field>(alloc: Global, rows: &Rows<F>) -> Option<Bytes> {
    if rows.count() != rows.width() {
        return None;
    }
    let mut text = Bytes::new(alloc);
    match invert(alloc, rows) {
        Ok(Inverse::Of(inverse)) => {
            text.append(b"inverse").ok()?;
            put_rows(&mut text, &inverse).ok()?;
        }
        Ok(Inverse::Singular(vector)) => {
            text.append(b"orthogonal").ok()?;
            put_numbers(&mut text, vector.as_slice()).ok()?;
        }
        Err(fault) => put_fault(&mut text, &fault).ok()?,
    }
    Some(text)
}

/// What `complement` answers.
fn complement_text<F: Field>(alloc: Global, rows: &Rows<F>) -> Result<Bytes, NoMemory> {
    let mut text = Bytes::new(alloc);
    match complement(alloc, rows, rows.width()) {
        Ok(vectors) => {
            text.append(b"complement")?;
            put_rows(&mut text, &vectors)?;
            text.append(b" end")?;
        }
        Err(fault) => put_fault(&mut text, &fault)?,
    }
    Ok(text)
}

/// The text of a list or a fault.
fn list_text<F: Field>(
    alloc: Global,
    list: Result<Items<F>, RowFault<F>>,
) -> Result<Bytes, NoMemory> {
    let mut text = Bytes::new(alloc);
    match list {
        Ok(list) => {
            text.append(b"list")?;
            put_numbers(&mut text, list.as_slice())?;
        }
        Err(fault) => put_fault(&mut text, &fault)?,
    }
    Ok(text)
}

/// What `dot` answers.
fn dot_text<F: Field>(alloc: Global, a: &[F], b: &[F]) -> Option<Bytes> {
    if a.len() != b.len() {
        return None;
    }
    sum_text(alloc, dot(a, b)).ok()
}

/// What `combine` answers.
fn combine_text<F: Field>(alloc: Global, a: &Items<F>, k: F, b: &Items<F>) -> Option<Bytes> {
    if a.len() != b.len() {
        return None;
    }
    list_text(alloc, combine(alloc, a.as_slice(), k, b.as_slice())).ok()
}

/// What the call of a line answers.
fn answer<F: Field>(alloc: Global, call: &[&str]) -> Option<Bytes> {
    match call {
        ["independent", list] => independent_text::<F>(alloc, &rows(alloc, list)?).ok(),
        ["invert", list] => invert_text::<F>(alloc, &rows(alloc, list)?),
        ["complement", list] => complement_text::<F>(alloc, &rows(alloc, list)?).ok(),
        ["complement of no rows", width] => {
            let none: Rows<F> = Rows::new(alloc, width.trim().parse().ok()?);
            complement_text(alloc, &none).ok()
        }
        ["dot", a, b] => {
            let (a, b) = (numbers::<F>(alloc, a)?, numbers(alloc, b)?);
            dot_text(alloc, a.as_slice(), b.as_slice())
        }
        ["scale", a, k] => {
            let a = numbers::<F>(alloc, a)?;
            list_text(alloc, scale(alloc, a.as_slice(), number(k.trim())?)).ok()
        }
        ["combine", a, k, b] => {
            let (a, b) = (numbers::<F>(alloc, a)?, numbers(alloc, b)?);
            combine_text(alloc, &a, number(k.trim())?, &b)
        }
        _ => None,
    }
}

/// Whether the answer is the line's.
fn agrees<F: Field>(alloc: Global, line: &str) -> Option<bool> {
    let (call, expected) = line.rsplit_once(';')?;
    let words: Vec<&str> = call.split(';').collect(alloc).ok()?;
    Some(begins(&answer::<F>(alloc, words.as_slice())?, expected))
}

#[test]
fn rows_are_eliminated_and_added(rt: HostRuntime) {
    for line in HELD.lines() {
        assert!(rt; agrees::<Frac>(rt.alloc(), line) == Some(true), "{line}");
    }
    for line in GIVEN_UP.lines() {
        assert!(rt; agrees::<Tiny>(rt.alloc(), line) == Some(true), "{line}");
    }
}
