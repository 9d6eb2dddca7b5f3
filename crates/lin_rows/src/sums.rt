//! Products and sums of lists.

ghost use Rattle.std.specs.Prelude.{◌≡◌, ◌≢◌, ◌<◌, ◌≤◌, ℕ, IsTrue, IsFalse, length, map, IfOk, IfErr};
ghost use Rattle.exact_field.specs.Rational.{zero_ℚ, ◌+ℚ◌, ◌*ℚ◌};
ghost use Rattle.exact_field.specs.Vector.{dot as product};
ghost use Rattle.exact_field.specs.declared.op.Op.TheVariants.{Mul};
ghost use Rattle.polyhedra.specs.Vectors.{plus, scaled};
ghost use Rattle.lin_rows.specs.Sums.{AreHeld, AreProductsHeld, IsCombinationHeld, IsCombineFault, IsDotLeft, IsFaultAt, IsScaleFault, IsTermLeft, PlusStops, ProductStops};

use crate::fault::RowFault;
use crate::spots::Stop;
use exact_field::{Field, Left, is_zero};
use src_sink::Items;
use std::alloc::Global;

/// The total and a product, which is not formed where a factor is 0.
pub fn add_product<F: Field>(total: F, x: F, y: F) -> Result<F, Left<F>>
    ensures ok { IfOk result (λ r. F.value r ≡ F.value total +ℚ F.value x *ℚ F.value y) }
    ensures held { IfOk result (λ r. F.value x ≢ zero_ℚ → F.value y ≢ zero_ℚ
        → IsTrue (F.holds (F.value x *ℚ F.value y))
        × IsTrue (F.holds (F.value total +ℚ F.value x *ℚ F.value y))) }
    ensures first { IfErr result (λ left. F.value x ≢ zero_ℚ) }
    ensures second { IfErr result (λ left. F.value y ≢ zero_ℚ) }
    ensures left { IfErr result
        (λ left. IsTermLeft F.value F.holds (F.value total) (F.value x) (F.value y) left) }
{
    if is_zero(x) {
        return Ok(total);
    }
    if is_zero(y) {
        return Ok(total);
    }
    let product = x.mul(y)?;
    total.add(product)
}

/// The sum of the products of two lists of one length, over the places at which neither entry is 0,
/// from the first on: each takes one product, and then one sum with the total.
pub fn dot<F: Field>(a: &[F], b: &[F]) -> Result<F, Left<F>>
    requires { length a.now ≡ length b.now }
    ensures ok { IfOk result (λ r. F.value r ≡ product (map F.value a.now) (map F.value b.now)) }
    ensures held { IfOk result
        (λ r. AreHeld F.holds (map F.value a.now) (map F.value b.now) (length a.now)) }
    ensures left { IfErr result
        (IsDotLeft F.value F.holds (map F.value a.now) (map F.value b.now)) }
{
    let mut total = F::zero();
    for i in 0..a.len() {
        total = add_product(total, a[i], b[i])?;
    }
    Ok(total)
}

/// A number and a product.
fn plus_product<F: Field>(x: F, k: F, y: F) -> Result<F, Stop<F>>
    ensures ok { IfOk result (λ r. F.value r ≡ F.value x +ℚ F.value k *ℚ F.value y) }
    ensures held { IfOk result (λ r. IsTrue (F.holds (F.value k *ℚ F.value y))
        × IsTrue (F.holds (F.value x +ℚ F.value k *ℚ F.value y))) }
    ensures left { IfErr result (PlusStops F.value F.holds (F.value x) (F.value k) (F.value y)) }
{
    match k.mul(y) {
        Err(left) => Err(Stop::Step(2, left)),
        Ok(product) => match x.add(product) {
            Err(left) => Err(Stop::Step(3, left)),
            Ok(sum) => Ok(sum),
        },
    }
}

/// The fault at a place of a list.
fn fault_at<F: Field>(alloc: Global, index: usize, stop: Stop<F>) -> RowFault<F>
    requires { index < 4294967295 }
    ensures { IsFaultAt index stop result }
{
    match stop {
        Stop::NoMemory => RowFault::NoMemory,
        Stop::Step(step, left) => RowFault::Left {
            basis: Items::new(alloc),
            row: 0,
            col: index as u32 + 1,
            step,
            left,
        },
    }
}

/// `a + k b`, of two lists of one length.
pub fn combine<F: Field>(alloc: Global, a: &[F], k: F, b: &[F]) -> Result<Items<F>, RowFault<F>>
    requires same { length a.now ≡ length b.now }
    requires short { length a.now ≤ 4294967294 }
    ensures ok { IfOk result
        (λ r. map F.value r ≡ plus (map F.value a.now) (scaled (F.value k) (map F.value b.now))) }
    ensures held { IfOk result (λ r. IsCombinationHeld F.holds (map F.value a.now) (F.value k)
        (map F.value b.now) (length a.now)) }
    ensures left { IfErr result
        (IsCombineFault F.value F.holds (map F.value a.now) (F.value k) (map F.value b.now)) }
{
    let mut out = Items::new(alloc);
    for i in 0..a.len() {
        match plus_product(a[i], k, b[i]) {
            Err(stop) => return Err(fault_at(alloc, i, stop)),
            Ok(sum) => out.push(sum)?,
        }
    }
    Ok(out)
}

/// A product, which is step 2.
fn product_of<F: Field>(k: F, y: F) -> Result<F, Stop<F>>
    ensures ok { IfOk result (λ r. F.value r ≡ F.value k *ℚ F.value y) }
    ensures held { IfOk result (λ r. IsTrue (F.holds (F.value k *ℚ F.value y))) }
    ensures left { IfErr result (ProductStops F.value F.holds (F.value k) (F.value y)) }
{
    match k.mul(y) {
        Err(left) => Err(Stop::Step(2, left)),
        Ok(product) => Ok(product),
    }
}

/// The vector `k a`.
pub fn scale<F: Field>(alloc: Global, a: &[F], k: F) -> Result<Items<F>, RowFault<F>>
    requires { length a.now ≤ 4294967294 }
    ensures ok { IfOk result (λ r. map F.value r ≡ scaled (F.value k) (map F.value a.now)) }
    ensures held { IfOk result
        (λ r. AreProductsHeld F.holds (F.value k) (map F.value a.now) (length a.now)) }
    ensures left { IfErr result (IsScaleFault F.value F.holds (F.value k) (map F.value a.now)) }
{
    let mut out = Items::new(alloc);
    for (i, y) in a.iter().enumerate() {
        match product_of(k, *y) {
            Err(stop) => return Err(fault_at(alloc, i, stop)),
            Ok(product) => out.push(product)?,
        }
    }
    Ok(out)
}
