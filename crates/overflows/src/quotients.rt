//! Quotients of the entries of a vector.
ghost use Rattle.std.specs.Prelude.{◌≡◌, ◌≢◌, ◌≤◌, [], map, take, length, IfOk, IfErr};
ghost use Rattle.exact_field.specs.Rational.{inverse_ℚ, zero_ℚ};
ghost use Rattle.overflows.specs.Quotients.{IsDivisor, IsScaled};
ghost use Rattle.overflows.specs.Settings.{Setting};
ghost use Rattle.overflows.specs.Faults.{Overflows};
ghost use Rattle.polyhedra.specs.Vectors.{scaled};

use crate::fault::SolveFault;
use crate::licences::scale_fault;
use exact_field::Field;
use src_sink::Items;
use std::alloc::Global;

/// The first `count` entries of a vector, each divided by a number that is not 0.
pub fn quotients_of<F: Field>(
    alloc: Global,
    vector: &[F],
    count: usize,
    by: F,
) -> Result<Items<F>, SolveFault>
    requires by { F.value by ≢ zero_ℚ }
    requires count { count ≤ length vector.now }
    requires short { length vector.now ≤ 4294967294 }
    ensures ok { IfOk result (λ r. map F.value r
        ≡ scaled (inverse_ℚ (F.value by)) (take count (map F.value vector.now))) }
    ensures left { (s : Setting) → IsScaled s (map F.value vector.now)
        → IsDivisor s (map F.value vector.now) (F.value by)
        → IfErr result (Overflows F.holds s []) }
{
    let mut quotients = Items::new(alloc);
    for i in 0..count {
        match vector[i].div(by) {
            Ok(quotient) => quotients.push(quotient)?,
            Err(left) => {
                return Err(scale_fault(alloc, vector, i as u32 + 1, left, Items::new(alloc)));
            }
        }
    }
    Ok(quotients)
}
