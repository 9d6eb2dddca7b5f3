//! A start: the cuts of a trail come into use, with the double description of their rows.
ghost use Rattle.std.specs.Prelude.{◌≡◌, ◌<◌, suc, length, map, All, IfOk, ◌-◌, ◌+◌, ◌*◌, ◌≤◌, [], drop, slice_index_or, OnErr, OnOk, ℕ, IfErr};
ghost use Rattle.std.specs.List.{range_with_len};
ghost use Rattle.lin_rows.specs.Read.{numbers};
ghost use Rattle.lineality.specs.Without.{open_count, without};
ghost use Rattle.outer_approx.specs.Cuts.{said_by};
ghost use Rattle.polyhedra.specs.Exactness.{level, rows_of};
ghost use Rattle.polyhedra.specs.LiveList.{vectors};
ghost use Rattle.outer_approx.specs.First.{AreFirst, HasStart, front_with};
ghost use Rattle.outer_approx.specs.Lines.{line_places};
ghost use Rattle.upper_image.specs.Spots.{pieces};
ghost use Rattle.log_rules.specs.Live.{lines, preimages};
ghost use Rattle.outer_approx.specs.Standing.{IsBegun, IsOpenTrail, IsOuter, cuts_of};
ghost use Rattle.outer_approx.specs.Task.{Task, setting};
ghost use Rattle.overflows.specs.Faults.{Overflows};
ghost use Rattle.polyhedra.specs.Cone.{HasFullRank};

use crate::places::cut_row;
use deriv_log::{Entries, Entry};
use double_descr::Dd;
use exact_field::Field;
use frac128::Vector;
use lin_rows::Rows;
use lineality::line_places::{full_vector, open_places};
use lp_form::Cut;
use overflows::{SolveFault, fractions, fractions_are_written, naturals_are_written, start_fault};
use src_sink::{Items, NoMemory};
use std::alloc::Global;

/// The row `t >= 0` of points and directions with `q` entries.
fn level_row<F: Field>(alloc: Global, q: u32) -> Result<Items<F>, NoMemory>
    ensures { IfOk result (λ row. map F.value row ≡ level q) }
{
    let mut row = Items::new(alloc);
    for _k in 0..q {
        row.push(F::zero())?;
    }
    row.push(F::one())?;
    Ok(row)
}

/// The row `t >= 0` and those of cuts, without the entries at the places of lines.
fn rows_of_cuts<F: Field>(
    alloc: Global,
    places: &[bool],
    cuts: &[Cut<F>],
) -> Result<Rows<F>, NoMemory>
    requires few { length places.now < 4294967294 }
    requires wide { All (λ cut. length cut.w ≡ length places.now) cuts.now }
    ensures width { IfOk result (λ rows. rows.width ≡ suc (open_count places.now)) }
    ensures rows { IfOk result (λ rows. numbers F.value rows.list
        ≡ map (without places.now) (rows_of (length places.now) (map (said_by F.value) cuts.now))) }
{
    let count = open_places(places);
    let level = level_row(alloc, count)?;
    let mut rows = Rows::new(alloc, count + 1);
    rows.push_row(level.as_slice())?;
    for cut in cuts {
        let row = cut_row(alloc, places, cut)?;
        rows.push_row(row.as_slice())?;
    }
    Ok(rows)
}

/// The numbers from 1 to `count`.
fn numbers_to(alloc: Global, count: u32) -> Result<Items<u32>, NoMemory>
    ensures { IfOk result (λ out. out ≡ range_with_len 1 count) }
{
    let mut out = Items::new(alloc);
    for k in 0..count {
        out.push(k + 1)?;
    }
    Ok(out)
}

/// The entries of the first generator `g` but its last one, with zeros at the places of lines.
fn front_of<F: Field>(
    alloc: Global,
    places: &[bool],
    dd: &Dd<F>,
    g: u32,
) -> Result<Vector, NoMemory>
    requires first { AreFirst (open_count places.now) dd.now.list }
    requires low { 1 ≤ g }
    requires high { g ≤ suc (open_count places.now) }
    ensures { IfOk result (λ front. front
        ≡ front_with places.now (slice_index_or (vectors dd.now.list.live) (g - 1) [])) }
{
    let full = full_vector(alloc, places, dd.generator(g))?;
    let entries = full.as_slice();
    fractions(alloc, &entries[..places.len()])
}

/// Those of the generators from 2 on, one after the other.
fn directions_of<F: Field>(
    alloc: Global,
    places: &[bool],
    count: u32,
    dd: &Dd<F>,
) -> Result<Vector, NoMemory>
    requires count { count ≡ open_count places.now }
    requires few { count < 4294967294 }
    requires first { AreFirst count dd.now.list }
    ensures long { IfOk result (λ directions. length directions ≡ count * length places.now) }
    ensures pieces { IfOk result (λ directions. pieces count (length places.now) directions
        ≡ map (front_with places.now) (drop 1 (vectors dd.now.list.live))) }
{
    let mut directions = Items::new(alloc);
    for k in 0..count {
        let front = front_of(alloc, places, dd, k + 2)?;
        directions.append(front.as_slice())?;
    }
    Ok(directions)
}

/// Appends the entry that brings the cuts into use.
fn push_start<F: Field>(
    alloc: Global,
    places: &[bool],
    trail: &mut Entries,
    dd: &Dd<F>,
) -> Result<(), NoMemory>
    requires few { length places.now < 4294967294 }
    requires first { AreFirst (open_count places.now) dd.now.list }
    ensures ok { OnOk result (HasStart places.now (vectors dd.now.list.live) trail.old trail.new) }
    ensures err { OnErr result (trail.new ≡ trail.old) }
{
    let count = open_places(places);
    let cuts = numbers_to(alloc, count)?;
    naturals_are_written(cuts.as_slice());
    let point = front_of(alloc, places, dd, 1)?;
    fractions_are_written(point.as_slice());
    let directions = directions_of(alloc, places, count, dd)?;
    fractions_are_written(directions.as_slice());
    trail.push(Entry::Start {
        cuts,
        point,
        directions,
    })
}

/// Brings the cuts of a trail into use, which with its lines are as many as there are objectives,
/// and whose normals are independent without the entries at the places of the lines: the double
/// description of the row `t >= 0` and their rows without these entries, and the entry `start`.
pub fn start_outer<F: Field>(
    alloc: Global,
    places: &[bool],
    trail: &mut Entries,
    cuts: &[Cut<F>],
) -> Result<Dd<F>, SolveFault>
    ghost task: { Task }
    requires few { length places.now < 4294967294 }
    requires begun { IsBegun task (lines trail.old) (map (said_by F.value) cuts.now) trail.old }
    requires places { places.now ≡ line_places task trail.old }
    requires some { 1 ≤ length cuts.now }
    requires many { length cuts.now + length (lines trail.old) ≡ task.file.objs }
    requires wide { All (λ cut. length cut.w ≡ task.file.objs) cuts.now }
    requires rank { HasFullRank (open_count places.now)
        (map (without places.now) (map (λ cut. map F.value cut.w) cuts.now)) }
    ensures ok { IfOk result (IsOuter task trail.new) }
    ensures cuts { cuts_of task trail.new ≡ cuts_of task trail.old }
    ensures lines { lines trail.new ≡ lines trail.old }
    ensures preimages { OnOk result ((k : ℕ) → preimages trail.new k ≡ preimages trail.old k) }
    ensures trail { IsOpenTrail task trail.new }
    ensures left { IfErr result (Overflows F.holds (setting task trail.new) []) }
{
    let rows = rows_of_cuts(alloc, places, cuts)?;
    match Dd::start(alloc, &rows) {
        Err(fault) => Err(start_fault(alloc, &rows, fault)),
        Ok(dd) => {
            push_start(alloc, places, trail, &dd)?;
            Ok(dd)
        }
    }
}
