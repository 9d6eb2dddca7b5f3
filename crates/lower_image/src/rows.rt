//! The rows of points and directions of the image over dual vectors.
ghost use Rattle.std.specs.Prelude.{◌≡◌, ◌≤◌, ◌<◌, [], map, length, Contains, IfOk, IfErr, IsTrue};
ghost use Rattle.exact_field.specs.Rational.{one_ℚ};
ghost use Rattle.exact_field.specs.Vector.{dot, entry};
ghost use Rattle.deriv_log.specs.declared.licence.Place.TheVariants as place_of;
ghost use Rattle.overflows.specs.Base.{IsBaseRow, image_of};
ghost use Rattle.overflows.specs.Products.{IsBaseX};
ghost use Rattle.overflows.specs.Settings.{Knows, Setting};
ghost use Rattle.overflows.specs.Steps.{in_numbers};
ghost use Rattle.geo_duality.specs.Rows.{exchange_row};
ghost use Rattle.lp_form.specs.Data.{IsDataOf, vector_of};
ghost use Rattle.lp_form.specs.Shapes.{are_places};
ghost use Rattle.overflows.specs.Faults.{IsLeftAt, Overflows};
ghost use Rattle.upper_image.specs.UpperImage.{objectives};
ghost use Rattle.vlp_problem.specs.declared.problem.Problem.{Problem as File};

use deriv_log::{Licence, Place};
use exact_field::{Field, Left};
use geo_duality::{ExchangeFault, exchange};
use lin_rows::spots::{Spot, entry_at};
use lp_form::Data;
use overflows::{SolveFault, fractions, operation, sum_of_products, term_fault};
use src_sink::{Items, NoMemory};
use std::alloc::Global;

/// The numbers of a sparse row at all places.
fn numbers_of<F: Field>(alloc: Global, line: &[Spot<F>], cols: u32) -> Result<Items<F>, NoMemory>
    requires { IsTrue (are_places cols 0 line.now) }
    ensures { IfOk result (λ list. map F.value list ≡ vector_of F.value cols line.now) }
{
    let mut list = Items::new(alloc);
    for j in 0..cols {
        list.push(entry_at(line, j + 1))?;
    }
    Ok(list)
}

/// The value of an objective at x.
fn objective_at<F: Field>(alloc: Global, line: &[Spot<F>], x: &[F]) -> Result<F, SolveFault>
    requires short { length x.now ≤ 4294967294 }
    requires places { IsTrue (are_places (length x.now) 0 line.now) }
    ensures ok { IfOk result
        (λ r. F.value r ≡ dot (vector_of F.value (length x.now) line.now) (map F.value x.now)) }
    ensures left { (s : Setting)
        → Contains (objectives s.file) (vector_of F.value (length x.now) line.now)
        → IsBaseX s (map F.value x.now) → IfErr result (Overflows F.holds s []) }
{
    let row = numbers_of(alloc, line, x.len() as u32)?;
    match sum_of_products(row.as_slice(), x) {
        Ok(value) => Ok(value),
        Err(fault) => Err(term_fault(alloc, fault, Items::new(alloc))),
    }
}

/// The objectives' value at x, in working coordinates.
pub fn image_at<F: Field>(alloc: Global, form: &Data<F>, x: &[F]) -> Result<Items<F>, SolveFault>
    requires wide { length x.now ≡ form.now.cols }
    ensures ok { (file : File) → IsDataOf F.value file form.now
        → IfOk result (λ y. map F.value y ≡ image_of file (map F.value x.now)) }
    ensures left { (s : Setting) → IsDataOf F.value s.file form.now → IsBaseX s (map F.value x.now)
        → IfErr result (Overflows F.holds s []) }
{
    let mut y = Items::new(alloc);
    for line in form.p.as_slice() {
        let value = objective_at(alloc, line.as_slice(), x)?;
        y.push(value)?;
    }
    Ok(y)
}

/// The fault of an exchange as a fault with its place, with no trail.
fn exchange_fault<F: Field>(alloc: Global, y: &[F], t: bool, step: u64, left: Left<F>) -> SolveFault
    ensures { IsLeftAt (place_of.Exchange (map F.value y.now) t step)
        (in_numbers F.value left) [] result }
{
    match fractions(alloc, y) {
        Err(_) => SolveFault::NoMemory,
        Ok(y) => SolveFault::Left(Licence {
            place: Place::Exchange { y, t, step },
            left: operation(left),
            trail: Items::new(alloc),
        }),
    }
}

/// The row of a point or a direction over dual vectors, where it is a base row. `c` is the duality
/// vector.
pub fn exchanged_row<F: Field>(
    alloc: Global,
    c: &[F],
    y: &[F],
    t: bool,
) -> Result<Items<F>, SolveFault>
    requires some { 1 ≤ length y.now }
    requires same { length c.now ≡ length y.now }
    requires narrow { length y.now < 4294967296 }
    requires normed { entry (map F.value c.now) (length c.now) ≡ one_ℚ }
    ensures ok { IfOk result
        (λ row. map F.value row ≡ exchange_row (map F.value c.now) (map F.value y.now) t) }
    ensures left { (s : Setting) → Knows s (map F.value c.now)
        → IsBaseRow s.file (map F.value c.now) (exchange_row (map F.value c.now)
        (map F.value y.now) t)
        → IfErr result (Overflows F.holds s []) }
{
    match exchange(alloc, y, t, c) {
        Ok(row) => Ok(row),
        Err(ExchangeFault::NoMemory) => Err(SolveFault::NoMemory),
        Err(ExchangeFault::Left { step, left }) => Err(exchange_fault(alloc, y, t, step, left)),
    }
}
