//! Lists of numbers.
ghost use Rattle.std.specs.Prelude.{◌≡◌, ◌≤◌, ◌+◌, ◌<◌, map, length, All, IfOk, IfSome, IfNone};
ghost use Rattle.exact_field.specs.Rational.{zero_ℚ, ◌≤ℚ◌, ◌<ℚ◌};
ghost use Rattle.exact_field.specs.Vector.{entry};
ghost use Rattle.lin_rows.specs.Read.{numbers};
ghost use Rattle.polyhedra.specs.Vectors.{AreWide};
ghost use Rattle.tableaux.specs.Table.{row_of};

use exact_field::{Field, is_positive};
use lin_rows::Rows;
use src_sink::{Items, NoMemory};
use std::alloc::Global;

/// The place of the first entry that is not positive, counted from 0.
pub fn first_not_positive<F: Field>(list: &[F]) -> Option<usize>
    ensures some { IfSome result (λ k. (k < length list.now)
        × (entry (map F.value list.now) (k + 1) ≤ℚ zero_ℚ)) }
    ensures none { IfNone result (All (λ x. zero_ℚ <ℚ x) (map F.value list.now)) }
{
    for i in 0..list.len() {
        if !is_positive(list[i]) {
            return Some(i);
        }
    }
    None
}

/// The vectors, of `q` entries each, as rows.
pub fn rows_of<F: Field>(alloc: Global, q: u32, vectors: &[Items<F>]) -> Result<Rows<F>, NoMemory>
    requires { AreWide q (numbers F.value vectors.now) }
    ensures width { IfOk result (λ rows. rows.width ≡ q) }
    ensures rows { IfOk result (λ rows. rows.list ≡ vectors.now) }
{
    let mut rows = Rows::new(alloc, q);
    for vector in vectors {
        rows.push_row(vector.as_slice())?;
    }
    Ok(rows)
}

/// The vectors with these numbers as rows.
pub fn picked_rows<F: Field>(
    alloc: Global,
    q: u32,
    vectors: &[Items<F>],
    picks: &[u32],
) -> Result<Rows<F>, NoMemory>
    requires wide { AreWide q (numbers F.value vectors.now) }
    requires from_one { All (λ k. 1 ≤ k) picks.now }
    requires to_end { All (λ k. k ≤ length vectors.now) picks.now }
    ensures width { IfOk result (λ rows. rows.width ≡ q) }
    ensures rows { IfOk result
        (λ rows. numbers F.value rows.list ≡ map (row_of (numbers F.value vectors.now)) picks.now) }
{
    let mut rows = Rows::new(alloc, q);
    for k in picks {
        rows.push_row(vectors[*k as usize - 1].as_slice())?;
    }
    Ok(rows)
}
