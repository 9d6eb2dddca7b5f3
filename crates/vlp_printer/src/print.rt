//! The text of a problem.
ghost use Rattle.std.specs.Prelude.{◌≡◌, ◌≤◌, ◌++◌, ◌∷◌, [], decimal, length, count_by, not, OnOk, MatchResult};
ghost use Rattle.frac128.specs.Sparse.{is_zero};
ghost use Rattle.src_sink.specs.Texts.{line_text};
ghost use Rattle.vlp_problem.specs.Sides.{is_unsaid};
ghost use Rattle.vlp_printer.specs.Decimal.{number_text};
ghost use Rattle.vlp_problem.specs.Values.{cone_vectors, duality_entries};
ghost use Rattle.vlp_printer.specs.Printing.{after_blanks, bound_line, bound_words, bounds_text, cells_text, cone_words, direction_word, duality_text, entry_count, entry_line, heading_words, vector_entry, vector_text, vectors_text, Prints, RefusesText};

use crate::decimal::Decimal;
use crate::fault::PrintFault;
use crate::numbers::wide_number;
use frac128::{Frac, Vector, Vectors, is_zero};
use itoa::Buffer;
use src_sink::{Bytes, Items, NoMemory};
use std::alloc::Global;
use vlp_problem::{Bound, Cell, Cone, Dir, Problem};

/// Appends a blank and a word.
fn put_word(word: &[u8], into: &mut Bytes) -> Result<(), NoMemory>
    ensures { OnOk result (into.new ≡ into.old ++ 32 ∷ word.now) }
{
    into.push(b' ')?;
    into.append(word)
}

/// Appends a blank and a natural number.
fn put_natural(number: u128, into: &mut Bytes) -> Result<(), NoMemory>
    ensures { OnOk result (into.new ≡ into.old ++ 32 ∷ decimal number) }
{
    put_word(Buffer::new().format(number).as_bytes(), into)
}

/// Appends a blank and a number.
fn put_number(number: Frac, into: &mut Bytes) -> Result<(), NoMemory>
    ensures { OnOk result (into.new ≡ into.old ++ 32 ∷ number_text number) }
{
    into.push(b' ')?;
    Decimal::put(number, into)
}

/// Appends the line of an entry of a matrix.
fn put_entry(
    letter: u8,
    row: u128,
    col: u128,
    value: Frac,
    into: &mut Bytes,
) -> Result<(), NoMemory>
    ensures { OnOk result (into.new ≡ into.old ++ entry_line (letter ∷ []) row col value) }
{
    into.push(letter)?;
    put_natural(row, into)?;
    put_natural(col, into)?;
    put_number(value, into)?;
    into.push(b'\n')?;
    Ok(())
}

/// Appends the lines of cells.
fn put_cells(letter: u8, cells: &[Cell], into: &mut Bytes) -> Result<(), NoMemory>
    ensures { OnOk result (into.new ≡ into.old ++ cells_text (letter ∷ []) cells.now) }
{
    for cell in cells {
        put_entry(
            letter,
            u128::from(cell.row),
            u128::from(cell.col),
            cell.value,
            into,
        )?;
    }
    Ok(())
}

/// Appends the lines of a duality vector, zeros too.
fn put_duality(duality: &Vector, into: &mut Bytes) -> Result<(), NoMemory>
    ensures { OnOk result (into.new ≡ into.old ++ duality_text duality.now) }
{
    let entries = duality.as_slice();
    for (before, entry) in entries.iter().enumerate() {
        put_entry(b'k', before as u128 + 1, 0, *entry, into)?;
    }
    Ok(())
}

/// Appends the line of an entry of a cone vector, where it is not 0.
fn put_vector_entry(row: u128, col: u128, value: Frac, into: &mut Bytes) -> Result<(), NoMemory>
    ensures { OnOk result (into.new ≡ into.old ++ vector_entry row col value) }
{
    if is_zero(value) {
        return Ok(());
    }
    put_entry(b'k', row, col, value, into)
}

/// Appends the lines of a cone vector.
fn put_vector(col: u128, vector: &Vector, into: &mut Bytes) -> Result<(), NoMemory>
    ensures { OnOk result (into.new ≡ into.old ++ vector_text col vector.now) }
{
    let entries = vector.as_slice();
    for (before, entry) in entries.iter().enumerate() {
        put_vector_entry(before as u128 + 1, col, *entry, into)?;
    }
    Ok(())
}

/// Appends the lines of all cone vectors.
fn put_vectors(vectors: &Vectors, into: &mut Bytes) -> Result<(), NoMemory>
    ensures { OnOk result (into.new ≡ into.old ++ vectors_text vectors.now) }
{
    let list = vectors.as_slice();
    for (before, vector) in list.iter().enumerate() {
        put_vector(before as u128 + 1, vector, into)?;
    }
    Ok(())
}

/// Appends the type of bounds and its numbers, a blank before each.
fn put_bound_words(bound: &Bound, into: &mut Bytes) -> Result<(), NoMemory>
    ensures { OnOk result (into.new ≡ into.old ++ after_blanks (bound_words bound.now)) }
{
    match bound {
        Bound::Unsaid => Ok(()),
        Bound::Free => put_word(b"f".as_slice(), into),
        Bound::Lower(value) => {
            put_word(b"l".as_slice(), into)?;
            put_number(*value, into)
        }
        Bound::Upper(value) => {
            put_word(b"u".as_slice(), into)?;
            put_number(*value, into)
        }
        Bound::Fixed(value) => {
            put_word(b"s".as_slice(), into)?;
            put_number(*value, into)
        }
        Bound::Double(low, high) => {
            put_word(b"d".as_slice(), into)?;
            put_number(*low, into)?;
            put_number(*high, into)
        }
    }
}

/// Whether the file gave no bounds.
fn is_unsaid(bound: &Bound) -> bool
    ensures { result ≡ is_unsaid bound.now }
{
    matches!(bound, Bound::Unsaid)
}

/// Appends the line of the bounds of a row or column, where there is one.
fn put_bound(letter: u8, number: u128, bound: &Bound, into: &mut Bytes) -> Result<(), NoMemory>
    ensures { OnOk result (into.new ≡ into.old ++ bound_line (letter ∷ []) number bound.now) }
{
    if is_unsaid(bound) {
        return Ok(());
    }
    into.push(letter)?;
    put_natural(number, into)?;
    put_bound_words(bound, into)?;
    into.push(b'\n')?;
    Ok(())
}

/// Appends the lines of all bounds of rows or of columns.
fn put_bounds(letter: u8, bounds: &Items<Bound>, into: &mut Bytes) -> Result<(), NoMemory>
    ensures { OnOk result (into.new ≡ into.old ++ bounds_text (letter ∷ []) bounds.now) }
{
    let list = bounds.as_slice();
    for (before, bound) in list.iter().enumerate() {
        put_bound(letter, before as u128 + 1, bound, into)?;
    }
    Ok(())
}

/// How many entries of a vector are not 0.
fn count_nonzero(vector: &Vector) -> usize
    ensures value { result ≡ count_by (λ q. not (is_zero q)) vector.now }
    ensures bound { result ≤ length vector.now }
{
    let mut count = 0;
    for entry in vector.as_slice() {
        if !is_zero(*entry) {
            count += 1;
        }
    }
    count
}

/// How many entries of these vectors are not 0.
fn entry_total(vectors: &Vectors) -> u128
    ensures { result ≡ entry_count vectors.now }
{
    let mut total: u128 = 0;
    for vector in vectors.as_slice() {
        total += count_nonzero(vector) as u128;
    }
    total
}

/// Appends the words of a cone and the numbers of its vectors and of their entries.
fn put_cone(cone: &Cone, into: &mut Bytes) -> Result<(), NoMemory>
    ensures { OnOk result (into.new ≡ into.old ++ after_blanks (cone_words cone.now)) }
{
    let (word, vectors) = match cone {
        Cone::Orthant => return Ok(()),
        Cone::Gens(vectors) => (b"cone".as_slice(), vectors),
        Cone::Dual(vectors) => (b"dualcone".as_slice(), vectors),
    };
    put_word(word, into)?;
    put_natural(vectors.len() as u128, into)?;
    put_natural(entry_total(vectors), into)
}

fn direction(dir: Dir) -> &'static [u8]
    ensures { result.now ≡ direction_word dir }
{
    match dir {
        Dir::Min => b"min".as_slice(),
        Dir::Max => b"max".as_slice(),
    }
}

/// Appends the problem line.
fn put_heading(problem: &Problem, into: &mut Bytes) -> Result<(), NoMemory>
    ensures { OnOk result (into.new ≡ into.old ++ line_text (heading_words problem.now)) }
{
    into.append(b"p vlp".as_slice())?;
    put_word(direction(problem.dir), into)?;
    put_natural(u128::from(problem.rows), into)?;
    put_natural(u128::from(problem.cols), into)?;
    put_natural(problem.a.len() as u128, into)?;
    put_natural(u128::from(problem.objs), into)?;
    put_natural(problem.o.len() as u128, into)?;
    put_cone(&problem.cone, into)?;
    into.push(b'\n')?;
    Ok(())
}

/// Appends the lines of a duality vector, where there is one.
fn put_given_duality(duality: &Option<Vector>, into: &mut Bytes) -> Result<(), NoMemory>
    ensures { OnOk result (into.new ≡ into.old ++ duality_text (duality_entries duality.now)) }
{
    match duality {
        Some(duality) => put_duality(duality, into),
        None => Ok(()),
    }
}

/// Appends the lines of a cone's vectors.
fn put_cone_vectors(cone: &Cone, into: &mut Bytes) -> Result<(), NoMemory>
    ensures { OnOk result (into.new ≡ into.old ++ vectors_text (cone_vectors cone.now)) }
{
    match cone {
        Cone::Orthant => Ok(()),
        Cone::Gens(vectors) | Cone::Dual(vectors) => put_vectors(vectors, into),
    }
}

/// The text of a problem as a vlp file. A number that is not whole is printed as `MeK`, with a
/// whole M and a K below 0. Within the limits of `read_vlp` the text reads back as the same
/// problem. `NotDecimal` names the first number, in the order of the text, that no word of a file
/// has as its value. The time is linear in the size of the problem.
pub fn print_vlp(alloc: Global, problem: &Problem) -> Result<Bytes, PrintFault>
    ensures { MatchResult result (Prints problem.now) (RefusesText problem.now) }
{
    if let Some(number) = wide_number(problem) {
        return Err(PrintFault::NotDecimal(number));
    }
    let mut text = Bytes::new(alloc);
    put_heading(problem, &mut text)?;
    put_cells(b'a', problem.a.as_slice(), &mut text)?;
    put_cells(b'o', problem.o.as_slice(), &mut text)?;
    put_given_duality(&problem.duality, &mut text)?;
    put_cone_vectors(&problem.cone, &mut text)?;
    put_bounds(b'i', &problem.row_bounds, &mut text)?;
    put_bounds(b'j', &problem.col_bounds, &mut text)?;
    text.append(b"e\n".as_slice())?;
    Ok(text)
}
