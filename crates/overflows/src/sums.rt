//! Sums of products that know their places.
ghost use Rattle.std.specs.Prelude.{◌≡◌, ◌≤◌, length, map, IfOk, IfErr};
ghost use Rattle.exact_field.specs.Vector.{dot};
ghost use Rattle.lin_rows.specs.Sums.{AreHeld};
ghost use Rattle.overflows.specs.Faults.{IsFirstTerm};

use crate::fault::SumFault;
use exact_field::Field;
use lin_rows::add_product;

/// The sum of the products of two lists of one length, as `dot` of `lin_rows` forms it, with the
/// place at which it is given up.
pub fn sum_of_products<F: Field>(xs: &[F], ys: &[F]) -> Result<F, SumFault<F>>
    requires same { length xs.now ≡ length ys.now }
    requires short { length xs.now ≤ 4294967294 }
    ensures ok { IfOk result (λ r. F.value r ≡ dot (map F.value xs.now) (map F.value ys.now)) }
    ensures held { IfOk result
        (λ r. AreHeld F.holds (map F.value xs.now) (map F.value ys.now) (length xs.now)) }
    ensures left { IfErr result
        (IsFirstTerm F.value F.holds (map F.value xs.now) (map F.value ys.now)) }
{
    let mut total = F::zero();
    for i in 0..xs.len() {
        match add_product(total, xs[i], ys[i]) {
            Err(left) => {
                return Err(SumFault {
                    place: i as u32 + 1,
                    left,
                });
            }
            Ok(sum) => total = sum,
        }
    }
    Ok(total)
}
