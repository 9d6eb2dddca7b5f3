//! The magnitudes of numbers, by which the column that enters is chosen: no clause speaks of this
//! choice.

ghost use Rattle.std.specs.Prelude.{◌≡◌, ◌≤◌, length};

use exact_field::Field;
use lin_rows::spots::Spot;
use src_sink::NoMemory;
use std::alloc::Global;

/// How many bits a natural number has.
fn bits(n: u128) -> u32
    ensures { result ≤ 128 }
{
    128u32.saturating_sub(n.leading_zeros())
}

/// The binary order of magnitude of a number that is not 0, and 128 more: the bits of its numerator
/// less those of its denominator.
pub fn magnitude<F: Field>(x: F) -> u32
    ensures { result ≤ 256 }
{
    let num = bits(x.num().unsigned_abs());
    let den = bits(x.den().unsigned_abs());
    (128 + num).saturating_sub(den)
}

/// Memory for the magnitude of each of so many columns, from 1.
pub fn magnitudes(alloc: Global, columns: u32) -> Result<Vec<u32>, NoMemory> {
    Ok(vec![in alloc; 0u32; columns as usize + 1]?)
}

/// Raises the magnitudes of columns to those of the entries of a row.
fn measure_row<F: Field>(row: &[Spot<F>], greatest: &mut [u32]) {
    for spot in row {
        let place = spot.at as usize;
        let size = magnitude(spot.value);
        if place < greatest.len() && greatest[place] < size {
            greatest[place] = size;
        }
    }
}

/// The greatest magnitude that each column has in the first `count` rows.
pub fn measure<F: Field>(rows: &[Vec<Spot<F>>], count: usize, greatest: &mut [u32])
    requires { count ≤ length rows.now }
{
    for slot in greatest.iter_mut() {
        *slot = 0;
    }
    for row in &rows[..count] {
        measure_row(row, greatest);
    }
}
