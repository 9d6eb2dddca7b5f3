//! The order in which rows come into use.
ghost use Rattle.std.specs.Prelude.{◌+◌, IfOk, OnOk};
ghost use Rattle.std.specs.List.Sorted.{IsPermutation};
ghost use Rattle.rep_convert.specs.Order.{IsOrder};

use crate::keys::Keys;
use frac128::{Frac, Vector, is_zero};
use src_sink::{Items, NoMemory};
use std::alloc::Global;

/// Lists a number, unless it is in use.
fn push_unused(order: &mut Items<u32>, used: &[u32], k: u32) -> Result<(), NoMemory>
    requires { IsOrder k used.now order.old }
    ensures { OnOk result (IsOrder (k + 1) used.now order.new) }
{
    if used.contains(&k) {
        return Ok(());
    }
    order.push(k)
}

/// The numbers that are not in use, rising.
fn list_unused(alloc: Global, count: u32, used: &[u32]) -> Result<Items<u32>, NoMemory>
    ensures { IfOk result (IsOrder count used.now) }
{
    let mut order = Items::new(alloc);
    for k in 0..count {
        push_unused(&mut order, used, k)?;
    }
    Ok(order)
}

/// For each number below the bound in which eighth of an order it stands.
fn eighths(alloc: Global, count: u32, order: &[u32]) -> Result<Vec<usize>, NoMemory> {
    let mut eighths = Vec::new(alloc);
    for _ in 0..count {
        eighths.push(0)?;
    }
    for (place, k) in order.iter().enumerate() {
        if let Some(eighth) = eighths.get_mut(*k as usize) {
            *eighth = place.saturating_mul(8) / order.len().max(1);
        }
    }
    Ok(eighths)
}

/// The entries of the row of a number.
fn entries_of(rows: &[Vector], k: u32) -> Option<&[Frac]> {
    rows.get(k as usize).map(|row| row.as_slice())
}

/// For each number below the bound whether its row is equal to that of the number before it.
fn repeats(
    alloc: Global,
    count: u32,
    order: &[u32],
    rows: &[Vector],
) -> Result<Vec<bool>, NoMemory> {
    let mut repeats = Vec::new(alloc);
    for _ in 0..count {
        repeats.push(false)?;
    }
    for (before, k) in order.iter().zip(order.iter().skip(1)) {
        if let Some(is_repeat) = repeats.get_mut(*k as usize) {
            *is_repeat = entries_of(rows, *before) == entries_of(rows, *k);
        }
    }
    Ok(repeats)
}

/// Sorts corners of a box by their entries, from the first on; last come those that stand before.
/// These give no new generators, and where there are most corners of a box, there are few
/// generators at the end.
fn sort_corners(
    alloc: Global,
    order: &mut Vec<u32>,
    count: u32,
    rows: &[Vector],
) -> Result<(), NoMemory>
    ensures { OnOk result (IsPermutation order.old.items order.new.items) }
{
    order.sort_by_cached_key(|k| entries_of(rows, *k))?;
    let repeats = repeats(alloc, count, order, rows)?;
    order.sort_by_cached_key(|k| repeats.get(*k as usize).copied())?;
    Ok(())
}

/// Sorts points, the farthest first, and those that are as far by their entries.
fn sort_far_first(
    order: &mut Vec<u32>,
    rows: &[Vector],
    nearness: &[Option<i64>],
) -> Result<(), NoMemory>
    ensures { OnOk result (IsPermutation order.old.items order.new.items) }
{
    order.sort_by_cached_key(|k| {
        let near = nearness.get(*k as usize).copied().flatten();
        (near, entries_of(rows, *k))
    })?;
    Ok(())
}

/// How many entries are not 0.
fn count_entries(row: &[Frac]) -> usize {
    row.iter().filter(|x| !is_zero(**x)).count()
}

/// Sorts rows: those of equations and lines first, then those at the widest angles with the mean
/// of all. Within an eighth of these the rows of fewest entries come first, on which most
/// generators lie where numbers are small; rows that are alike in this stand by their entries.
fn sort_wide_first(
    alloc: Global,
    order: &mut Vec<u32>,
    count: u32,
    rows: &[Vector],
    cosines: &[Option<i128>],
) -> Result<(), NoMemory>
    ensures { OnOk result (IsPermutation order.old.items order.new.items) }
{
    order.sort_by_cached_key(|k| {
        let cosine = cosines.get(*k as usize).copied().flatten();
        (cosine, entries_of(rows, *k))
    })?;
    let eighths = eighths(alloc, count, order)?;
    order.sort_by_cached_key(|k| {
        let goes_one_way = cosines.get(*k as usize).copied().flatten().is_some();
        let eighth = eighths.get(*k as usize).copied();
        let row = entries_of(rows, *k);
        ((goes_one_way, eighth), (row.map(count_entries), row))
    })?;
    Ok(())
}

/// Sorts rows so that few of them have few generators, and near those of all.
fn sort_rows(
    alloc: Global,
    keys: &Keys,
    order: &mut Vec<u32>,
    count: u32,
    rows: &[Vector],
) -> Result<(), NoMemory>
    ensures { OnOk result (IsPermutation order.old.items order.new.items) }
{
    match keys {
        Keys::Corners => sort_corners(alloc, order, count, rows),
        Keys::Nearness(nearness) => sort_far_first(order, rows, nearness),
        Keys::Cosines(cosines) => sort_wide_first(alloc, order, count, rows, cosines),
    }
}

/// The order in which the rows that are not in use come into use.
pub(crate) fn order_of(
    alloc: Global,
    keys: &Keys,
    count: u32,
    rows: &[Vector],
    used: &[u32],
) -> Result<Items<u32>, NoMemory>
    ensures { IfOk result (IsOrder count used.now) }
{
    let order = list_unused(alloc, count, used)?;
    let mut order = order.into_vec();
    sort_rows(alloc, keys, &mut order, count, rows)?;
    Ok(Items::from_vec(order))
}
