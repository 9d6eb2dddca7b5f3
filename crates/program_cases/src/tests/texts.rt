//! Lists from texts, and texts of answers.

use exact_field::{Field, Left, Op};
use frac128::{Frac, frac_of, put_frac};
use lin_rows::{RowFault, Rows};
use src_sink::{Bytes, Items, NoMemory};
use std::alloc::Global;

/// A number, as `2` or `-1/2`.
pub fn number<F: Field>(word: &str) -> Option<F> {
    match word.split_once('/') {
        Some((num, den)) => F::of(num.parse().ok()?, den.parse().ok()?),
        None => F::of(word.parse().ok()?, 1),
    }
}

/// The numbers of a text.
pub fn numbers<F: Field>(alloc: Global, text: &str) -> Option<Items<F>> {
    let mut list = Items::new(alloc);
    for word in text.split_ascii_whitespace() {
        list.push(number(word)?).ok()?;
    }
    Some(list)
}

/// The places of a text.
pub fn places(alloc: Global, text: &str) -> Option<Items<u32>> {
    let mut list = Items::new(alloc);
    for word in text.split_ascii_whitespace() {
        list.push(word.parse().ok()?).ok()?;
    }
    Some(list)
}

/// Appends a row that has the width of the others.
fn push_row<F: Field>(rows: &mut Rows<F>, row: &[F]) -> Option<()> {
    if row.len() == rows.width() as usize {
        rows.push_row(row).ok()
    } else {
        None
    }
}

/// The rows of a text, which are of one width, with a comma between each two.
pub fn rows<F: Field>(alloc: Global, text: &str) -> Option<Rows<F>> {
    let width = text.split(',').next()?.split_ascii_whitespace().count();
    let mut rows = Rows::new(alloc, u32::try_from(width).ok()?);
    for line in text.split(',') {
        let row = numbers(alloc, line)?;
        push_row(&mut rows, row.as_slice())?;
    }
    Some(rows)
}

/// Whether a text begins as it should.
pub fn begins(text: &Bytes, expected: &str) -> bool {
    text.as_slice().starts_with(expected.trim().as_bytes())
}

/// Appends a blank and a number.
fn put_number<F: Field>(text: &mut Bytes, x: F) -> Result<(), NoMemory> {
    text.push(b' ')?;
    put_frac(frac_of(x), text)
}

/// Appends numbers, each after a blank.
pub fn put_numbers<F: Field>(text: &mut Bytes, numbers: &[F]) -> Result<(), NoMemory> {
    for x in numbers {
        put_number(text, *x)?;
    }
    Ok(())
}

/// Appends rows, with a comma after each.
pub fn put_rows<F: Field>(text: &mut Bytes, rows: &Rows<F>) -> Result<(), NoMemory> {
    for k in 0..rows.count() {
        put_numbers(text, rows.row(k + 1))?;
        text.push(b',')?;
    }
    Ok(())
}

/// Appends places, each after a blank.
pub fn put_places(text: &mut Bytes, places: &[u32]) -> Result<(), NoMemory> {
    for place in places {
        put_number(text, Frac::from(i64::from(*place)))?;
    }
    Ok(())
}

/// Appends an operation whose result is not held, with its operands.
pub fn put_left<F: Field>(text: &mut Bytes, left: &Left<F>) -> Result<(), NoMemory> {
    let name = match left.op {
        Op::Add => " add",
        Op::Sub => " sub",
        Op::Mul => " mul",
        Op::Div => " div",
    };
    text.append(name.as_bytes())?;
    put_number(text, left.a)?;
    put_number(text, left.b)
}

/// Appends where an elimination was given up: the row, the column, the step, the operation and the
/// basis.
pub fn put_fault<F: Field>(text: &mut Bytes, fault: &RowFault<F>) -> Result<(), NoMemory> {
    match fault {
        RowFault::Left {
            basis,
            row,
            col,
            step,
            left,
        } => {
            text.append(b"left")?;
            put_places(text, &[*row, *col, u32::from(*step)])?;
            put_left(text, left)?;
            text.append(b" basis")?;
            put_places(text, basis.as_slice())
        }
        RowFault::NoMemory => Err(NoMemory),
    }
}

/// The text of a sum or an operation that is not held.
pub fn sum_text<F: Field>(alloc: Global, sum: Result<F, Left<F>>) -> Result<Bytes, NoMemory> {
    let mut text = Bytes::new(alloc);
    match sum {
        Ok(sum) => {
            text.append(b"sum")?;
            put_number(&mut text, sum)?;
        }
        Err(left) => {
            text.append(b"left")?;
            put_left(&mut text, &left)?;
        }
    }
    Ok(text)
}
