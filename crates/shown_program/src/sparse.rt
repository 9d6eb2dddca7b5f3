//! Products with columns, and multiples of them.
ghost use Rattle.std.specs.Prelude.{◌≡◌, ◌-◌, ◌≤◌, length, map, slice_set, IsTrue, IfSome};
ghost use Rattle.exact_field.specs.Vector.{dot, entry};
ghost use Rattle.polyhedra.specs.Vectors.{plus, scaled};
ghost use Rattle.lp_form.specs.Shapes.{are_places};
ghost use Rattle.program_columns.specs.Columns.{filled};

use exact_field::{Field, is_zero};
use lin_rows::add_product;
use lin_rows::spots::Spot;

/// The number at a place, from 1.
pub(crate) fn number_at<F: Field>(list: &[F], place: u32) -> F
    requires low { 1 ≤ place }
    requires high { place ≤ length list.now }
    ensures { F.value result ≡ entry (map F.value list.now) place }
{
    list[place as usize - 1]
}

/// Writes a number at a place, from 1.
pub(crate) fn put<F: Field>(list: &mut [F], place: u32, value: F)
    requires low { 1 ≤ place }
    requires high { place ≤ length list.old }
    ensures { list.new ≡ slice_set list.old (place - 1) value }
{
    list[place as usize - 1] = value;
}

/// The product of a column with a multiplier for each equation; none where a number is not held.
pub(crate) fn product<F: Field>(spots: &[Spot<F>], y: &[F]) -> Option<F>
    requires { IsTrue (are_places (length y.now) 0 spots.now) }
    ensures { IfSome result
        (λ r. F.value r ≡ dot (map F.value y.now) (filled F.value (length y.now) spots.now)) }
{
    let mut total = F::zero();
    for spot in spots {
        match add_product(total, spot.value, number_at(y, spot.at)) {
            Err(_) => return None,
            Ok(sum) => total = sum,
        }
    }
    Some(total)
}

/// Adds `x` times a column. Answers whether each number is held: if not, the sum is of no use.
pub(crate) fn add_multiple<F: Field>(total: &mut [F], x: F, spots: &[Spot<F>]) -> bool
    requires { IsTrue (are_places (length total.old) 0 spots.now) }
    ensures { IsTrue result
        → map F.value total.new
        ≡ plus (map F.value total.old)
        (scaled (F.value x) (filled F.value (length total.old) spots.now)) }
{
    if is_zero(x) {
        return true;
    }
    for spot in spots {
        match add_product(number_at(total, spot.at), x, spot.value) {
            Err(_) => return false,
            Ok(sum) => put(total, spot.at, sum),
        }
    }
    true
}
