//! The generators of cones that rows of whole numbers cut out.

ghost use Rattle.std.specs.Prelude.{◌≡◌, ◌<◌, ◌++◌, IfSome};
ghost use Rattle.std.specs.Bool.{OnTrue};
ghost use Rattle.polyhedra.specs.Cone.{HasFullRank};
ghost use Rattle.lin_rows.specs.Read.{numbers};
ghost use Rattle.bench_calls.specs.Cones.{IsCount, rows_of};

use crate::lines::line_of;
use double_descr::Dd;
use exact_field::Field;
use frac128::Frac;
use lin_rows::{Indep, Rows, find_independent};
use src_sink::Items;
use std::alloc::Global;

/// So many rows, one after the other.
#[tactic(auto, using(crate::proofs::RowsOf::read_more))]
fn rows_from(alloc: Global, width: u32, count: u32, entries: &[i64]) -> Option<Rows<Frac>>
    ensures width { IfSome result (λ rows. rows.width ≡ width) }
    ensures rows { IfSome result (λ rows. rows.list ≡ rows_of count width entries.now) }
{
    let mut rows = Rows::new(alloc, width);
    let mut rest = entries;
    for place in 0..count {
        if rest.len() < width as usize {
            return None;
        }
        let (line, more) = rest.split_at(width as usize);
        let row = line_of(alloc, line)?;
        if row.len() != width as usize {
            return None;
        }
        rows.push_row(row.as_slice()).ok()?;
        rest = more;
    }
    Some(rows)
}

/// Whether there are as many independent ones among the rows as they have entries; false also where
/// an elimination overflows.
fn have_full_rank(alloc: Global, rows: &Rows<Frac>) -> bool
    ensures { OnTrue result (HasFullRank rows.now.width (numbers (λ q. q) rows.now.list)) }
{
    match find_independent(alloc, rows, rows.width()) {
        Ok(Indep::Basis(_)) => true,
        _ => false,
    }
}

/// The double description of rows, if they are independent and as many as they have entries.
#[tactic(auto, using(crate::proofs::RowsOf::numbers_same))]
fn start_cone(alloc: Global, rows: &Rows<Frac>) -> Option<Dd<Frac>>
    ensures width { IfSome result (λ dd. dd.width ≡ rows.now.width) }
    ensures rows { IfSome result (λ dd. dd.rows ≡ rows.now.list) }
{
    if rows.count() != rows.width() || !have_full_rank(alloc, rows) {
        return None;
    }
    Dd::start(alloc, rows).ok()
}

/// Adds rows, as far as they can be added.
fn add_all(dd: &mut Dd<Frac>, rows: &Rows<Frac>) -> bool
    requires { dd.old.width ≡ rows.now.width }
    ensures width { dd.new.width ≡ dd.old.width }
    ensures rows { OnTrue result (dd.new.rows ≡ dd.old.rows ++ rows.now.list) }
{
    for k in 0..rows.count() {
        if dd.add(rows.row(k + 1)).is_err() {
            return false;
        }
    }
    true
}

/// The double description of rows, of which the first are independent and as many as they have
/// entries.
fn cone_of(alloc: Global, width: u32, first: &[i64], count: u32, more: &[i64]) -> Option<Dd<Frac>>
    ensures width { IfSome result (λ dd. dd.width ≡ width) }
    ensures rows { IfSome result
        (λ dd. dd.rows ≡ rows_of width width first.now ++ rows_of count width more.now) }
{
    let rows = rows_from(alloc, width, width, first)?;
    let further = rows_from(alloc, width, count, more)?;
    let mut dd = start_cone(alloc, &rows)?;
    if !add_all(&mut dd, &further) {
        return None;
    }
    Some(dd)
}

/// Appends the numerator and the denominator of each entry, as far as they have 63 bits.
fn append_parts(vector: &[Frac], parts: &mut Items<i64>) -> Option<()> {
    for entry in vector {
        parts.push(i64::try_from(entry.num()).ok()?).ok()?;
        parts.push(i64::try_from(entry.den()).ok()?).ok()?;
    }
    Some(())
}

/// The numerators and denominators of all live generators, in their order.
fn parts_of(alloc: Global, dd: &Dd<Frac>) -> Option<Items<i64>> {
    let mut parts = Items::new(alloc);
    for g in dd.live() {
        append_parts(dd.generator(*g), &mut parts)?;
    }
    Some(parts)
}

/// Writes the numerators and denominators, if they have 63 bits and there is room.
fn write_parts(alloc: Global, dd: &Dd<Frac>, into: &mut [i64]) {
    if let Some(parts) = parts_of(alloc, dd) {
        if parts.len() <= into.len() {
            into[..parts.len()].copy_from_slice(parts.as_slice());
        }
    }
}

/// How many generators the cone of the rows has: of `width` rows that are independent, and of
/// `count` further ones. 0 where there are too few entries, a number is not held, or memory is
/// wanting. The numerators and denominators of the generators' entries are written to `parts`, if
/// they have 63 bits and there is room.
#[unsafe(no_mangle)]
pub extern "C" fn bench_generators(
    alloc: Global,
    width: u32,
    first: &[i64],
    count: u32,
    more: &[i64],
    parts: &mut [i64],
) -> u32
    ensures { 0 < result
        → IsCount width (rows_of width width first.now ++ rows_of count width more.now) result }
{
    match cone_of(alloc, width, first, count, more) {
        Some(dd) => {
            write_parts(alloc, &dd, parts);
            dd.live().len() as u32
        }
        None => 0,
    }
}
