//! Sparse vectors of lists of numbers.
ghost use Rattle.std.specs.Prelude.{◌≡◌, ◌≤◌, map, length, All, not, IfOk, OnOk, IsTrue};
ghost use Rattle.frac128.specs.Sparse.{is_zero as is_nought};
ghost use Rattle.lin_rows.specs.Clear.{Writes};
ghost use Rattle.upper_image.specs.Spots.{dense, entry_of, IsVector};

use exact_field::{Field, is_zero};
use frac128::{Sparse, Spot, frac_of};
use src_sink::{Items, NoMemory};
use std::alloc::Global;

/// Appends a number at a place, unless it is 0.
fn push_spot<F: Field>(spots: &mut Sparse, at: u32, x: F) -> Result<(), NoMemory>
    ensures written { OnOk result
        (Writes at (F.value x) (map entry_of spots.old) (map entry_of spots.new)) }
    ensures kept { OnOk result (All (λ s. IsTrue (not (is_nought s.value))) spots.old
        → All (λ s. IsTrue (not (is_nought s.value))) spots.new) }
{
    if is_zero(x) {
        return Ok(());
    }
    let value = frac_of(x);
    spots.push(Spot { at, value })
}

/// The sparse vector of a list of numbers.
pub fn spots_of<F: Field>(alloc: Global, list: &[F]) -> Result<Sparse, NoMemory>
    requires { length list.now ≤ 4294967294 }
    ensures vector { IfOk result (IsVector (length list.now)) }
    ensures numbers { IfOk result (λ spots. dense (length list.now) spots ≡ map F.value list.now) }
{
    let mut spots = Items::new(alloc);
    for i in 0..list.len() {
        push_spot(&mut spots, i as u32 + 1, list[i])?;
    }
    Ok(spots)
}
