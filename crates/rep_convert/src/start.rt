//! The rows that a conversion starts with, and their double description.
ghost use Rattle.std.specs.Prelude.{◌≡◌, ◌≢◌, ◌-◌, ◌<◌, ◌≤◌, [], suc, All, AllPairs, IfErr, IfOk, IfSome, IsPermutation, length, map, slice_index_or};
ghost use Rattle.frac128.specs.Held.{is_held};
ghost use Rattle.lineality.specs.Without.{open_count, with_zeros, without};
ghost use Rattle.polyhedra.specs.LiveList.{vectors};
ghost use Rattle.rep_conv.specs.Rows.{row_at, text_rows};
ghost use Rattle.rep_convert.specs.Licensed.{IsConvLeft};
ghost use Rattle.rep_convert.specs.Order.{IsOrder};
ghost use Rattle.rep_convert.specs.Lines.{AreLinesOf, marks_of, rows_without, width_without};
ghost use Rattle.rep_convert.specs.Started.{AreStarts, IsStarted, picked_without};
ghost use Rattle.double_descr.specs.Starting.{IsStart};

use crate::fault::ConvFault;
use crate::keys::Keys;
use crate::licences::row_left;
use crate::order::order_of;
use crate::products::try_products;
use double_descr::{Dd, DdFault};
use frac128::{Frac, Vector, Vectors};
use guessed_rows::independent_in_two_ways;
use lin_rows::{Indep, RowFault, Rows};
use lineality::line_places::{full_vector, open_places, row_without};
use rep_text::Rep;
use src_sink::{Items, NoMemory};
use std::alloc::Global;

/// The start of a conversion.
#[derive(Drop)]
pub(crate) struct Started {
    /// The numbers of the rows, rising.
    pub(crate) picks: Items<u32>,
    /// The first generators, with zeros at the places of lines.
    pub(crate) gens: Vectors,
    pub(crate) dd: Dd<Frac>,
}

/// Rows without the entries at the places of lines.
fn short_rows(alloc: Global, places: &[bool], rows: &[Vector]) -> Result<Rows<Frac>, NoMemory>
    requires few { length places.now ≤ 19 }
    requires wide { All (λ r. length r ≡ suc (length places.now)) rows.now }
    ensures width { IfOk result (λ short. short.width ≡ suc (open_count places.now)) }
    ensures rows { IfOk result (λ short. short.list ≡ map (without places.now) rows.now) }
{
    let mut short = Rows::new(alloc, open_places(places) + 1);
    for whole in rows {
        let row = row_without(alloc, places, whole.as_slice())?;
        short.push_row(row.as_slice())?;
    }
    Ok(short)
}

/// Each of these numbers less 1.
fn from_zero(alloc: Global, numbers: &[u32]) -> Result<Items<u32>, NoMemory>
    requires { All (λ k. 1 ≤ k) numbers.now }
    ensures { IfOk result (λ list. list ≡ map (λ k. k - 1) numbers.now) }
{
    let mut list = Items::new(alloc);
    for number in numbers {
        list.push(*number - 1)?;
    }
    Ok(list)
}

/// These numbers, none of which stands twice, so that they rise.
fn rising(numbers: Items<u32>) -> Items<u32>
    requires { AllPairs (λ j k. j ≢ k) numbers }
    ensures rise { AllPairs (λ j k. j < k) result }
    ensures same { IsPermutation numbers result }
{
    let mut list = numbers.into_vec();
    list.sort_unstable();
    Items::from_vec(list)
}

/// The elements of a list at these places, from 1.
fn at_places(alloc: Global, list: &[u32], places: &[u32]) -> Result<Items<u32>, NoMemory>
    requires low { All (λ i. 1 ≤ i) places.now }
    requires high { All (λ i. i ≤ length list.now) places.now }
    ensures { IfOk result (λ out. out ≡ map (λ i. slice_index_or list.now (i - 1) 0) places.now) }
{
    let mut out = Items::new(alloc);
    for place in places {
        out.push(list[*place as usize - 1])?;
    }
    Ok(out)
}

/// The numbers of the rows of a start among the first so many of an order, where these have enough
/// and their elimination meets no overflow: each that is independent of those before it in the
/// order. Want of memory is told, as by the other calls. Its cost is that of an elimination of so
/// many rows.
fn early_numbers(
    alloc: Global,
    rep: &Rep,
    lines: &[Vector],
    short: &Rows<Frac>,
    order: &[u32],
    most: usize,
) -> Result<Option<Items<u32>>, NoMemory>
    requires lines { AreLinesOf rep.now lines.now }
    requires width { short.now.width ≡ width_without rep.now lines.now }
    requires rows { short.now.list ≡ rows_without rep.now lines.now }
    requires order { IsOrder (length short.now.list) [] order.now }
    ensures starts { IfOk result (λ found. IfSome found (AreStarts rep.now lines.now)) }
{
    let Some(first) = order.get(..most) else {
        return Ok(None);
    };
    let rows = picked_rows(alloc, short, first)?;
    match independent_in_two_ways(alloc, &rows, rows.width()) {
        Ok(Indep::Basis(places)) => {
            let picks = at_places(alloc, first, places.as_slice())?;
            Ok(Some(rising(picks)))
        }
        Ok(Indep::Orthogonal(_)) => Ok(None),
        Err(RowFault::Left { .. }) => Ok(None),
        Err(RowFault::NoMemory) => Err(NoMemory),
    }
}

/// The numbers of the rows of the start, from 0. The cost is that of an elimination of the rows.
fn all_numbers(
    alloc: Global,
    rep: &Rep,
    lines: &[Vector],
    short: &Rows<Frac>,
) -> Result<Items<u32>, ConvFault>
    requires lines { AreLinesOf rep.now lines.now }
    requires some { 0 < length (text_rows rep.now) }
    requires width { short.now.width ≡ width_without rep.now lines.now }
    requires rows { short.now.list ≡ rows_without rep.now lines.now }
    ensures starts { IfOk result (AreStarts rep.now lines.now) }
    ensures left { IfErr result (IsConvLeft is_held rep.now) }
{
    match independent_in_two_ways(alloc, short, short.width()) {
        Ok(Indep::Basis(numbers)) => Ok(from_zero(alloc, numbers.as_slice())?),
        Ok(Indep::Orthogonal(_)) => unreachable!(),
        Err(fault) => Err(row_left(alloc, short, fault)),
    }
}

/// The numbers of the rows of the start, from 0: among the first rows of an order, or among all in
/// that order, where they can be found so, and else as the rows stand.
fn start_numbers(
    alloc: Global,
    rep: &Rep,
    lines: &[Vector],
    short: &Rows<Frac>,
    order: &[u32],
) -> Result<Items<u32>, ConvFault>
    requires lines { AreLinesOf rep.now lines.now }
    requires some { 0 < length (text_rows rep.now) }
    requires width { short.now.width ≡ width_without rep.now lines.now }
    requires rows { short.now.list ≡ rows_without rep.now lines.now }
    requires order { IsOrder (length short.now.list) [] order.now }
    ensures starts { IfOk result (AreStarts rep.now lines.now) }
    ensures left { IfErr result (IsConvLeft is_held rep.now) }
{
    for times in [1, 2, 4, 8, 16, 32, 64, 128, 256] {
        let most = times * short.width() as usize;
        let found = early_numbers(alloc, rep, lines, short, order, most)?;
        if let Some(picks) = found {
            return Ok(picks);
        }
    }
    let found = early_numbers(alloc, rep, lines, short, order, order.len())?;
    if let Some(picks) = found {
        return Ok(picks);
    }
    all_numbers(alloc, rep, lines, short)
}

/// The rows of these numbers, from 0, in the order of the numbers.
fn picked_rows(alloc: Global, rows: &Rows<Frac>, picks: &[u32]) -> Result<Rows<Frac>, NoMemory>
    requires { All (λ k. k < length rows.now.list) picks.now }
    ensures width { IfOk result (λ out. out.width ≡ rows.now.width) }
    ensures rows { IfOk result
        (λ out. out.list ≡ map (λ k. slice_index_or rows.now.list k []) picks.now) }
{
    let _count = rows.count();
    let mut out = Rows::new(alloc, rows.width());
    for number in picks {
        out.push_row(rows.row(*number + 1))?;
    }
    Ok(out)
}

/// The double description of the rows of the start.
fn describe(
    alloc: Global,
    rep: &Rep,
    lines: &[Vector],
    short: &Rows<Frac>,
    picks: &[u32],
) -> Result<Dd<Frac>, ConvFault>
    requires lines { AreLinesOf rep.now lines.now }
    requires width { short.now.width ≡ width_without rep.now lines.now }
    requires rows { short.now.list ≡ rows_without rep.now lines.now }
    requires starts { AreStarts rep.now lines.now picks.now }
    ensures start { IfOk result (IsStart (width_without rep.now lines.now)
        (picked_without rep.now lines.now picks.now)) }
    ensures left { IfErr result (IsConvLeft is_held rep.now) }
{
    let rows = picked_rows(alloc, short, picks)?;
    match Dd::start(alloc, &rows) {
        Ok(dd) => Ok(dd),
        Err(DdFault::NoMemory) => Err(ConvFault::NoMemory),
        Err(DdFault::Elim(fault)) => Err(row_left(alloc, &rows, fault)),
        Err(DdFault::Left { .. }) => unreachable!(),
    }
}

/// The generators of a start with zeros at the places of lines.
pub(crate) fn filled_generators(
    alloc: Global,
    places: &[bool],
    dd: &Dd<Frac>,
) -> Result<Vectors, NoMemory>
    ensures { IfOk result
        (λ gens. gens ≡ map (with_zeros places.now) (vectors dd.now.list.live)) }
{
    let numbers = dd.live();
    let mut gens = Items::new(alloc);
    for number in numbers {
        gens.push(full_vector(alloc, places, dd.generator(*number))?)?;
    }
    Ok(gens)
}

/// The rows of these numbers, from 0, in the order of the numbers.
fn rows_at(alloc: Global, rows: &[Vector], picks: &[u32]) -> Result<Vectors, NoMemory>
    requires { All (λ k. k < length rows.now) picks.now }
    ensures { IfOk result
        (λ out. out ≡ map (λ k. slice_index_or rows.now k []) picks.now) }
{
    let mut out = Items::new(alloc);
    for number in picks {
        let mut row = Items::new(alloc);
        row.append(rows[*number as usize].as_slice())?;
        out.push(row)?;
    }
    Ok(out)
}

/// The first generators, where their products with the rows of the start can be formed.
fn tried_generators(
    alloc: Global,
    rep: &Rep,
    lines: &[Vector],
    places: &[bool],
    rows: &[Vector],
    picks: &[u32],
    dd: &Dd<Frac>,
) -> Result<Vectors, ConvFault>
    requires lines { AreLinesOf rep.now lines.now }
    requires places { places.now ≡ marks_of rep.now lines.now }
    requires rows { rows.now ≡ text_rows rep.now }
    requires starts { AreStarts rep.now lines.now picks.now }
    requires start { IsStart (width_without rep.now lines.now)
        (picked_without rep.now lines.now picks.now) dd.now }
    ensures started { IfOk result (λ gens. IsStarted rep.now lines.now picks.now gens dd.now) }
    ensures left { IfErr result (IsConvLeft is_held rep.now) }
{
    let gens = filled_generators(alloc, places, dd)?;
    let named = rows_at(alloc, rows, picks)?;
    try_products(alloc, named.as_slice(), gens.as_slice())?;
    Ok(gens)
}

/// Starts a conversion after its lines.
pub(crate) fn start(
    alloc: Global,
    rep: &Rep,
    lines: &[Vector],
    places: &[bool],
    rows: &[Vector],
    keys: &Keys,
) -> Result<Started, ConvFault>
    requires lines { AreLinesOf rep.now lines.now }
    requires places { places.now ≡ marks_of rep.now lines.now }
    requires rows { rows.now ≡ text_rows rep.now }
    requires some { 0 < length rows.now }
    ensures started { IfOk result
        (λ s. IsStarted rep.now lines.now s.picks s.gens s.dd) }
    ensures left { IfErr result (IsConvLeft is_held rep.now) }
{
    let short = short_rows(alloc, places, rows)?;
    let order = order_of(alloc, keys, short.count(), rows, &[])?;
    let picks = start_numbers(alloc, rep, lines, &short, order.as_slice())?;
    let dd = describe(alloc, rep, lines, &short, picks.as_slice())?;
    let gens = tried_generators(alloc, rep, lines, places, rows, picks.as_slice(), &dd)?;
    Ok(Started { picks, gens, dd })
}
