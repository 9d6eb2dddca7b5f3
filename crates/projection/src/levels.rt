//! Which directions of the associated image have entries that sum to 0. The sum may not be held, so
//! it is not calculated: a direction is level exactly where it begins as its choices do, and is not
//! the last unit vector, that is, not 0 in all of its first entries.
ghost use Rattle.std.specs.Prelude.{◌≡◌, ◌≤◌, ◌↔◌, List, map, length, take, IfOk, IsTrue, All};
ghost use Rattle.exact_field.specs.Order.{same_ℚ};
ghost use Rattle.exact_field.specs.Rational.{zero_ℚ};
ghost use Rattle.exact_field.specs.Vector.{sum_ℚ};
ghost use Rattle.polyhedra.specs.Sparse.{value_at, values_from};
ghost use Rattle.upper_image.specs.Spots.{entry_of};
ghost use Rattle.projection.specs.Found.{shortened, level_directions};
ghost use Rattle.projection.specs.Levels.{TellsLevel};

use crate::copies::short_gen;
use frac128::{Frac, Spot};
use log_rules::Gen;
use src_sink::{Items, NoMemory};
use std::alloc::Global;

/// The entry of a sparse vector at a place.
fn entry_at(spots: &[Spot], place: u32) -> Frac
    ensures { result ≡ value_at (map entry_of spots.now) place }
{
    for spot in spots {
        if spot.at == place {
            return spot.value;
        }
    }
    Frac::from(0)
}

/// Whether a vector begins with the first k entries of a sparse one.
fn begins_with(k: u32, vector: &[Frac], spots: &[Spot]) -> bool
    requires { k ≤ length vector.now }
    ensures { IsTrue result
        ↔ (take k vector.now ≡ values_from k 1 (value_at (map entry_of spots.now))) }
{
    for before in 0..k {
        if vector[before as usize] != entry_at(spots, before + 1) {
            return false;
        }
    }
    true
}

/// Whether the entries of a direction sum to 0.
fn is_level(k: u32, direction: &Gen) -> bool
    requires { TellsLevel k direction.now }
    ensures { result ≡ same_ℚ (sum_ℚ direction.now.y) zero_ℚ }
{
    let entries = direction.y.as_slice();
    begins_with(k, entries, direction.pre.as_slice()) && !begins_with(k, entries, &[])
}

/// The directions whose entries sum to 0, without the entries after the first k.
pub(crate) fn short_directions(
    alloc: Global,
    k: u32,
    directions: &[Gen],
) -> Result<Items<Gen>, NoMemory>
    requires { All (TellsLevel k) directions.now }
    ensures { IfOk result (λ short. short ≡ map (shortened k) (level_directions directions.now)) }
{
    let mut short = Items::new(alloc);
    for direction in directions {
        if is_level(k, direction) {
            short.push(short_gen(alloc, k, direction)?)?;
        }
    }
    Ok(short)
}
