//! Double description, from a start on and row by row, and the generators of cones of rows.

ghost use Rattle.std.specs.Prelude.{◌≡◌, IfOk, IsTrue};
ghost use Rattle.polyhedra.specs.Cone.{HasFullRank};
ghost use Rattle.lin_rows.specs.Read.{numbers};

use super::texts::{begins, put_fault, put_left, put_numbers, put_places, put_rows, rows};
use cone_dual::dual_gens;
use deriv_log::{Family, Licence, Place};
use double_descr::{Change, Dd, DdFault};
use exact_field::Field;
use frac128::{Frac, Tiny, Vectors};
use geo_duality::facets_of;
use incid_sets::Marks;
use lin_rows::{Indep, RowFault, Rows, find_independent};
use overflows::SolveFault;
use src_sink::{Bytes, NoMemory};
use std::alloc::Global;

/// Over fractions. `start` and `live` tell how many rows there are, and of each live generator its
/// number, its entries and the rows that are 0 there; `add` tells what changes, and the facets.
const HELD: &str = "\
start; 0 0 1, 1/2 1/2 0, 0 1 -4; rows 3: 1 -4 4 1 at 1 2, 2 1 0 0 at 0 2, 3 -1 1 0 at 0 1,.
add; 1/4 3/4 -3; dropped 1 pairs 2 1 3 1 next 4 facets 1 2 3.
live; ; rows 4: 2 1 0 0 at 0 2, 3 -1 1 0 at 0 1, 4 0 4 1 at 2 3, 5 -6 6 1 at 1 3,.
gens; 2 1, 1 2; gens 2 -1, -1/2 1,.";

/// Over tiny numbers: each step of a start and of an addition, cubes and cross-polytopes, of which
/// `more` tells how many live generators they have, and rows that change nothing or leave nothing.
const TINY: &str = "\
start; 0 0 10, 1 -20 0, 0 1 -10; left 0 1 1 div 20 1/10 basis.
start; 0 0 1/20, 1 -20 0, 0 1 -10; left 1 3 2 mul -10 20 basis 0 0 0.
start; 1 0, -1 1; rows 2: 1 1 1 at 1, 2 0 1 at 0,.
add; 100 100; left 1 0 4 add 100 100
add; 64 -1/2; left 1 2 5 add 1 127
live; ; rows 2: 1 1 1 at 1, 2 0 1 at 0,.
start; 1 0 0 1, 0 1 0 1, 0 0 1 1, -1 0 0 1; rows 4:
more; 0 -1 0 1, 0 0 -1 1; live 8 of
start; 1 0 0 0 1, 0 1 0 0 1, 0 0 1 0 1, 0 0 0 1 1, -1 0 0 0 1; rows 5:
more; 0 -1 0 0 1, 0 0 -1 0 1, 0 0 0 -1 1; live 16 of
start; 1 1 1 1, -1 1 1 1, 1 -1 1 1, 1 1 -1 1; rows 4:
more; -1 -1 1 1, -1 1 -1 1, 1 -1 -1 1, -1 -1 -1 1; live 6 of
start; 1 1 1 1 1, -1 1 1 1 1, 1 -1 1 1 1, 1 1 -1 1 1, 1 1 1 -1 1; rows 5:
more; -1 -1 1 1 1, -1 1 -1 1 1, -1 1 1 -1 1, 1 -1 -1 1 1, 1 -1 1 -1 1, 1 1 -1 -1 1; live
more; -1 -1 -1 1 1, -1 -1 1 -1 1, -1 1 -1 -1 1, 1 -1 -1 -1 1, -1 -1 -1 -1 1; live 8 of
start; 1 0 1, 0 1 1, -1 0 1; rows 3:
more; 0 -1 1; live 4 of 1 3 4 5.
add; 1 0 1; dropped pairs next 6 facets 1 2 3.
add; 1 0 1; dropped pairs next 6 facets 1 2 3.
add; 0 0 -1; dropped 1 3 4 5 pairs next 6 facets.
live; ; rows 7:.
gens; 0 0 1/20, 1 -20 0, 0 1 -10; elim 1 3 2 basis 0 0 0 rows 0 0 1/20, 1 -20 0, 0 1 -10,. mul -10 20
gens; 1 0, -1 1, 64 -1/2; pair 1 2 5 rows 1 0, -1 1, 64 -1/2,. add 1 127";

/// Whether rows have full rank.
fn has_full_rank<F: Field>(alloc: Global, rows: &Rows<F>) -> Result<bool, RowFault<F>>
    ensures { IfOk result
        (λ full. IsTrue full → HasFullRank rows.now.width (numbers F.value rows.now.list)) }
{
    match find_independent(alloc, rows, rows.width())? {
        Indep::Basis(_) => Ok(true),
        Indep::Orthogonal(_) => Ok(false),
    }
}

/// A double description, with its width.
#[derive(Drop)]
struct Cone<F: Field> {
    dd: Dd<F>,
    width: u32,
    ghost wide: { dd.width ≡ width },
}

/// The double description of as many independent rows as they have entries.
fn start_cone<F: Field>(alloc: Global, rows: &Rows<F>) -> Option<Result<Cone<F>, DdFault<F>>> {
    if rows.count() != rows.width() {
        return None;
    }
    match has_full_rank(alloc, rows) {
        Ok(true) => match Dd::start(alloc, rows) {
            Ok(dd) => Some(Ok(Cone {
                dd,
                width: rows.width(),
            })),
            Err(fault) => Some(Err(fault)),
        },
        Ok(false) => None,
        Err(fault) => Some(Err(DdFault::Elim(fault))),
    }
}

/// Adds a row.
fn add<F: Field>(cone: &mut Cone<F>, row: &[F]) -> Option<Result<Change, DdFault<F>>> {
    if row.len() != cone.width as usize {
        return None;
    }
    Some(cone.dd.add(row))
}

/// Appends why a double description was given up.
fn put_dd_fault<F: Field>(text: &mut Bytes, fault: &DdFault<F>) -> Result<(), NoMemory> {
    match fault {
        DdFault::Elim(fault) => put_fault(text, fault),
        DdFault::Left {
            first,
            second,
            step,
            left,
        } => {
            text.append(b"left")?;
            put_places(text, &[*first, *second, u32::try_from(*step).unwrap_or(0)])?;
            put_left(text, left)
        }
        DdFault::NoMemory => Err(NoMemory),
    }
}

/// Appends the numbers of a set, and a comma.
fn put_marks(text: &mut Bytes, marks: &Marks) -> Result<(), NoMemory> {
    for k in 0..marks.bound() {
        if marks.has(k) {
            put_places(text, &[k])?;
        }
    }
    text.push(b',')
}

/// How many rows there are, and the live generators with their tight rows.
fn live_text<F: Field>(alloc: Global, dd: &Dd<F>) -> Result<Bytes, NoMemory> {
    let mut text = Bytes::new(alloc);
    text.append(b"rows")?;
    put_places(&mut text, &[dd.row_count()])?;
    text.push(b':')?;
    let live = dd.live();
    for i in 0..live.len() {
        put_places(&mut text, &[live[i]])?;
        put_numbers(&mut text, dd.generator(live[i]))?;
        text.append(b" at")?;
        put_marks(&mut text, dd.tight(live[i]))?;
    }
    text.push(b'.')?;
    Ok(text)
}

/// What a start gives, which then is the cone.
fn start_text<F: Field>(
    alloc: Global,
    cone: &mut Option<Cone<F>>,
    rows: &Rows<F>,
) -> Option<Bytes> {
    match start_cone(alloc, rows)? {
        Ok(begun) => {
            let text = live_text(alloc, &begun.dd).ok()?;
            *cone = Some(begun);
            Some(text)
        }
        Err(fault) => {
            let mut text = Bytes::new(alloc);
            put_dd_fault(&mut text, &fault).ok()?;
            text.push(b'.').ok()?;
            Some(text)
        }
    }
}

/// Appends what an addition changed.
fn put_change(text: &mut Bytes, change: &Change) -> Result<(), NoMemory> {
    text.append(b"dropped")?;
    put_places(text, change.dropped.as_slice())?;
    text.append(b" pairs")?;
    for pair in change.pairs.as_slice() {
        put_places(text, &[pair.plus, pair.minus])?;
    }
    text.append(b" next")?;
    put_places(text, &[change.first_new])
}

/// What the addition of a row changes, and the facets.
fn add_text<F: Field>(alloc: Global, cone: &mut Cone<F>, row: &[F]) -> Option<Bytes> {
    let mut text = Bytes::new(alloc);
    match add(cone, row)? {
        Ok(change) => {
            put_change(&mut text, &change).ok()?;
            text.append(b" facets").ok()?;
            let facets = facets_of(alloc, &cone.dd).ok()?;
            put_places(&mut text, facets.as_slice()).ok()?;
            text.push(b'.').ok()?;
        }
        Err(fault) => put_dd_fault(&mut text, &fault).ok()?,
    }
    Some(text)
}

/// Adds rows.
fn add_all<F: Field>(cone: &mut Cone<F>, rows: &Rows<F>) -> Option<()> {
    for k in 0..rows.count() {
        add(cone, rows.row(k + 1))?.ok()?;
    }
    Some(())
}

/// The live generators that there are.
fn count_text(alloc: Global, live: &[u32]) -> Option<Bytes> {
    let mut text = Bytes::new(alloc);
    text.append(b"live").ok()?;
    put_places(&mut text, &[u32::try_from(live.len()).ok()?]).ok()?;
    text.append(b" of").ok()?;
    put_places(&mut text, live).ok()?;
    text.push(b'.').ok()?;
    Some(text)
}

/// Appends rows of fractions, with a comma after each.
fn put_vectors(text: &mut Bytes, rows: &Vectors) -> Result<(), NoMemory> {
    text.append(b" rows")?;
    for row in rows.as_slice() {
        put_numbers(text, row.as_slice())?;
        text.push(b',')?;
    }
    text.push(b'.')
}

/// Appends where the generators of a cone are given up.
fn put_place(text: &mut Bytes, place: &Place) -> Option<()> {
    match place {
        Place::Elim {
            rows,
            basis,
            row,
            col,
            step,
        } => {
            text.append(b"elim").ok()?;
            put_places(text, &[*row, *col, u32::from(*step)]).ok()?;
            text.append(b" basis").ok()?;
            put_places(text, basis.as_slice()).ok()?;
            put_vectors(text, rows).ok()
        }
        Place::Pair {
            family: Family::ConeRows,
            rows,
            first,
            second,
            step,
        } => {
            text.append(b"pair").ok()?;
            put_places(text, &[*first, *second, u32::try_from(*step).ok()?]).ok()?;
            put_vectors(text, rows).ok()
        }
        _ => None,
    }
}

/// The text of a licence, which has no trail.
fn licence_text(alloc: Global, licence: &Licence) -> Option<Bytes> {
    if licence.trail.len() != 0 {
        return None;
    }
    let mut text = Bytes::new(alloc);
    put_place(&mut text, &licence.place)?;
    put_left(&mut text, &licence.left).ok()?;
    Some(text)
}

/// The generators of the cone of rows, which are to have full rank.
fn gens_text<F: Field>(alloc: Global, rows: &Rows<F>) -> Option<Bytes> {
    if !has_full_rank(alloc, rows).ok()? {
        return None;
    }
    match dual_gens(alloc, rows) {
        Ok(gens) => {
            let mut text = Bytes::new(alloc);
            text.append(b"gens").ok()?;
            put_rows(&mut text, &gens).ok()?;
            text.push(b'.').ok()?;
            Some(text)
        }
        Err(SolveFault::Left(licence)) => licence_text(alloc, &licence),
        Err(SolveFault::NoMemory) => None,
    }
}

/// What the call of a line answers.
fn answer<F: Field>(
    alloc: Global,
    cone: &mut Option<Cone<F>>,
    call: &str,
    rows: &Rows<F>,
) -> Option<Bytes> {
    match call {
        "start" => start_text(alloc, cone, rows),
        "live" => live_text(alloc, &cone.as_ref()?.dd).ok(),
        "more" => {
            let cone = cone.as_mut()?;
            add_all(cone, rows)?;
            count_text(alloc, cone.dd.live())
        }
        "add" if rows.count() == 1 => add_text(alloc, cone.as_mut()?, rows.row(1)),
        "gens" => gens_text(alloc, rows),
        _ => None,
    }
}

/// Whether the answer is the line's.
fn agrees<F: Field>(alloc: Global, line: &str, cone: &mut Option<Cone<F>>) -> Option<bool> {
    let mut parts = line.split(';');
    let call = parts.next()?;
    let rows = rows(alloc, parts.next()?)?;
    let text = answer(alloc, cone, call, &rows)?;
    Some(begins(&text, parts.next()?))
}

#[test]
fn cones_are_described(rt: HostRuntime) {
    let mut cone: Option<Cone<Frac>> = None;
    for line in HELD.lines() {
        assert!(rt; agrees(rt.alloc(), line, &mut cone) == Some(true), "{line}");
    }
    let mut cone: Option<Cone<Tiny>> = None;
    for line in TINY.lines() {
        assert!(rt; agrees(rt.alloc(), line, &mut cone) == Some(true), "{line}");
    }
}
