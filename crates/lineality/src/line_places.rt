//! Vectors without the entries at the places of lines, and with zeros there again.
ghost use Rattle.std.specs.Prelude.{◌≡◌, ◌+◌, ◌^◌, ◌<◌, false, slice_index_or, IfOk, length, map};
ghost use Rattle.lineality.specs.Lines.{leading_place};
ghost use Rattle.lineality.specs.Without.{is_line_place, marks, open_count, with_zeros, without};

use exact_field::{Field, is_zero};
use src_sink::{Items, NoMemory};
use std::alloc::Global;

/// The place of the first entry that is not 0, counted from 1, and the one after the last where
/// there is none.
pub fn leading_place<F: Field>(v: &[F]) -> usize
    requires { length v.now + 1 < 2 ^ 64 }
    ensures { result ≡ leading_place (map F.value v.now) }
{
    for (k, x) in v.iter().enumerate() {
        if !is_zero(*x) {
            return k + 1;
        }
    }
    v.len() + 1
}

/// Whether a place is that of a line.
fn is_line_place<F: Field>(lines: &[Items<F>], place: usize) -> bool
    ensures { result ≡ is_line_place (map (map F.value) lines.now) place }
{
    for line in lines {
        if leading_place(line.as_slice()) == place {
            return true;
        }
    }
    false
}

/// For each of the places from 1 to `width` whether it is that of a line.
pub fn places_of<F: Field>(
    alloc: Global,
    width: u32,
    lines: &[Items<F>],
) -> Result<Items<bool>, NoMemory>
    ensures { IfOk result (λ places. places ≡ marks width (map (map F.value) lines.now)) }
{
    let mut places = Items::new(alloc);
    for k in 0..width {
        places.push(is_line_place(lines, k as usize + 1))?;
    }
    Ok(places)
}

/// How many places are not marked.
pub fn open_places(places: &[bool]) -> u32
    requires { length places.now < 2 ^ 32 }
    ensures { result ≡ open_count places.now }
{
    let mut count = 0u32;
    for is_line in places {
        if !*is_line {
            count += 1;
        }
    }
    count
}

/// Whether a place, counted from 0, is marked.
fn is_marked(places: &[bool], k: usize) -> bool
    ensures { result ≡ slice_index_or places.now k false }
{
    k < places.len() && places[k]
}

/// A row without the entries at marked places.
pub fn row_without<F: Field>(
    alloc: Global,
    places: &[bool],
    row: &[F],
) -> Result<Items<F>, NoMemory>
    ensures { IfOk result
        (λ short. map F.value short ≡ without places.now (map F.value row.now)) }
{
    let mut short = Items::new(alloc);
    for (k, x) in row.iter().enumerate() {
        if !is_marked(places, k) {
            short.push(*x)?;
        }
    }
    Ok(short)
}

/// A vector with zeros at the marked places.
pub fn full_vector<F: Field>(
    alloc: Global,
    places: &[bool],
    short: &[F],
) -> Result<Items<F>, NoMemory>
    ensures { IfOk result
        (λ full. map F.value full ≡ with_zeros places.now (map F.value short.now)) }
{
    let mut full = Items::new(alloc);
    let mut next = 0;
    for is_line in places {
        if *is_line {
            full.push(F::zero())?;
        } else if next < short.len() {
            full.push(short[next])?;
            next += 1;
        } else {
            return Ok(full);
        }
    }
    full.append(&short[next..])?;
    Ok(full)
}
