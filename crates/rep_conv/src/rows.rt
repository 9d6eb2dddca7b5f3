//! The rows of a representation, as vectors.
ghost use Rattle.std.specs.Prelude.{◌≡◌, ◌-◌, ◌<◌, ◌++◌, All, IfOk, OnOk, length, take};
ghost use Rattle.std.specs.List.{flat_map, list_any};
ghost use Rattle.exact_field.specs.Rational.{neg_ℚ};
ghost use Rattle.exact_field.specs.Vector.{entry};
ghost use Rattle.polyhedra.specs.Exactness.{homogenised, level as level_of};
ghost use Rattle.polyhedra.specs.Negatives.{negated as negative_of};
ghost use Rattle.rep_conv.specs.Rows.{both_signs, rows_of_kind, text_rows as rows_of};
ghost use Rattle.rep_conv.specs.Sets.{is_kind};
ghost use Rattle.rep_text.specs.declared.rep.RepKind.TheVariants.{Point};

use exact_field::Field;
use frac128::{Frac, Vector, Vectors};
use log_live::with_level;
use rep_text::{Rep, RepKind, RepRow};
use src_sink::{Items, NoMemory};
use std::alloc::Global;

/// The negative of a vector.
fn negate(alloc: Global, v: &[Frac]) -> Result<Vector, NoMemory>
    ensures { IfOk result (λ opposite. opposite ≡ negative_of v.now) }
{
    let mut opposite = Items::new(alloc);
    for x in v {
        opposite.push(x.neg())?;
    }
    Ok(opposite)
}

/// A vector with the negative of its last entry.
fn with_opposite_bound(alloc: Global, v: &[Frac]) -> Result<Vector, NoMemory>
    requires { 0 < length v.now }
    ensures { IfOk result (λ row. row
        ≡ homogenised (take (length v.now - 1) v.now) (neg_ℚ (entry v.now (length v.now)))) }
{
    let last = v.len() - 1;
    with_level(alloc, &v[..last], v[last].neg())
}

/// The row t >= 0.
pub fn level(alloc: Global, width: u32) -> Result<Vector, NoMemory>
    ensures { IfOk result (λ row. row ≡ level_of width) }
{
    let mut row = Items::new(alloc);
    for _ in 0..width {
        row.push(Frac::from(0))?;
    }
    row.push(Frac::from(1))?;
    Ok(row)
}

/// Appends a row and its negative.
fn push_both(alloc: Global, row: Vector, rows: &mut Vectors) -> Result<(), NoMemory>
    ensures { OnOk result (rows.new ≡ rows.old ++ both_signs row) }
{
    let opposite = negate(alloc, row.as_slice())?;
    rows.push(row)?;
    rows.push(opposite)?;
    Ok(())
}

/// Appends the rows of an inequality or equation, or of a line, point or direction.
fn push_rows(alloc: Global, row: &RepRow, rows: &mut Vectors) -> Result<(), NoMemory>
    requires { 0 < length row.now.v }
    ensures { OnOk result (rows.new ≡ rows.old ++ rows_of_kind row.now.kind row.now) }
{
    let v = row.v.as_slice();
    match row.kind {
        RepKind::Side => rows.push(with_opposite_bound(alloc, v)?),
        RepKind::Equal => push_both(alloc, with_opposite_bound(alloc, v)?, rows),
        RepKind::Line => push_both(alloc, with_level(alloc, v, Frac::from(0))?, rows),
        RepKind::Point => rows.push(with_level(alloc, v, Frac::from(1).neg())?),
        RepKind::Direction => rows.push(with_level(alloc, v, Frac::from(0))?),
    }
}

/// Appends the rows of each.
fn push_all(alloc: Global, list: &[RepRow], rows: &mut Vectors) -> Result<(), NoMemory>
    requires { All (λ row. 0 < length row.v) list.now }
    ensures { OnOk result
        (rows.new ≡ rows.old ++ flat_map (λ row. rows_of_kind row.kind row) list.now) }
{
    for row in list {
        push_rows(alloc, row, rows)?;
    }
    Ok(())
}

/// Whether there is a point.
fn has_point(list: &[RepRow]) -> bool
    ensures { result ≡ list_any (λ row. is_kind Point row.kind) list.now }
{
    list.iter().any(|row| row.kind == RepKind::Point)
}

/// The rows of a representation. They cost twice its numbers at the most.
pub fn text_rows(alloc: Global, rep: &Rep) -> Result<Vectors, NoMemory>
    ensures { IfOk result (λ rows. rows ≡ rows_of rep.now) }
{
    let mut rows = Items::new(alloc);
    let list = rep.rows.as_slice();
    if rep.gens && !has_point(list) {
        return Ok(rows);
    }
    if !rep.gens {
        rows.push(level(alloc, rep.width)?)?;
    }
    push_all(alloc, list, &mut rows)?;
    Ok(rows)
}
