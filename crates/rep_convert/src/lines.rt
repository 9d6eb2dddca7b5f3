//! The lines of a text.
ghost use Rattle.std.specs.Prelude.{◌≡◌, ◌++◌, ◌∷◌, [], All, IfErr, IfOk, IsTrue, length, map, not};
ghost use Rattle.frac128.specs.Held.{is_held};
ghost use Rattle.lin_rows.specs.Sums.{AreHeld};
ghost use Rattle.rep_conv.specs.Rows.{text_rows};
ghost use Rattle.rep_convert.specs.Licensed.{IsConvLeft};
ghost use Rattle.rep_convert.specs.Lines.{AreLinesOf};

use crate::fault::ConvFault;
use crate::licences::row_left;
use crate::products::try_products;
use frac128::{Frac, Vector, Vectors};
use guessed_rows::complement_in_two_ways;
use lin_rows::Rows;
use rep_text::Rep;
use src_sink::{Items, NoMemory};
use std::alloc::Global;

/// Vectors as rows of one width.
fn whole_rows(alloc: Global, width: u32, rows: &[Vector]) -> Result<Rows<Frac>, NoMemory>
    requires { All (λ r. length r ≡ width) rows.now }
    ensures width { IfOk result (λ list. list.width ≡ width) }
    ensures rows { IfOk result (λ list. list.list ≡ rows.now) }
{
    let mut list = Rows::new(alloc, width);
    for row in rows {
        list.push_row(row.as_slice())?;
    }
    Ok(list)
}

/// Rows of one width as vectors.
pub(crate) fn vectors_of(alloc: Global, rows: &Rows<Frac>) -> Result<Vectors, NoMemory>
    ensures { IfOk result (λ list. list ≡ rows.now.list) }
{
    let mut list = Items::new(alloc);
    for k in 0..rows.count() {
        let mut v = Items::new(alloc);
        v.append(rows.row(k + 1))?;
        list.push(v)?;
    }
    Ok(list)
}

/// The vectors at which all rows of a text are 0, in reduced echelon form. The cost is that of an
/// elimination of the rows.
fn found_lines(alloc: Global, rep: &Rep, rows: &[Vector]) -> Result<Vectors, ConvFault>
    requires { rows.now ≡ text_rows rep.now }
    ensures lines { IfOk result (AreLinesOf rep.now) }
    ensures left { IfErr result (IsConvLeft is_held rep.now) }
{
    let width = rep.width + 1;
    let whole = whole_rows(alloc, width, rows)?;
    match complement_in_two_ways(alloc, &whole, width) {
        Ok(lines) => Ok(vectors_of(alloc, &lines)?),
        Err(fault) => Err(row_left(alloc, &whole, fault)),
    }
}

/// These vectors, where their products with the rows can be formed.
pub(crate) fn lines_of(alloc: Global, rep: &Rep, rows: &[Vector]) -> Result<Vectors, ConvFault>
    requires { rows.now ≡ text_rows rep.now }
    ensures lines { IfOk result (AreLinesOf rep.now) }
    ensures held { IfOk result
        (λ lines. All (λ r. All (λ d. AreHeld is_held r d (length r)) lines) (text_rows rep.now)) }
    ensures left { IfErr result (IsConvLeft is_held rep.now) }
{
    let lines = found_lines(alloc, rep, rows)?;
    try_products(alloc, rows, lines.as_slice())?;
    Ok(lines)
}
