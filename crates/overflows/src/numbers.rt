//! Numbers of a field as fractions.
ghost use Rattle.std.specs.Prelude.{◌≡◌, All, map, IfOk, IsTrue, OnOk};
ghost use Rattle.overflows.specs.Steps.{in_numbers};
ghost use Rattle.lin_rows.specs.Read.{numbers};

use exact_field::{Field, Left};
use frac128::{Frac, Vector, Vectors, frac_of};
use lin_rows::Rows;
use src_sink::{Items, NoMemory};
use std::alloc::Global;

/// A number as a fraction; each number of a field is held.
fn fraction<F: Field>(x: F) -> Frac
    ensures same { result ≡ F.value x }
    ensures held { IsTrue (F.holds (F.value x)) }
{
    let _num = x.num();
    frac_of(x)
}

/// A list of numbers as fractions.
pub fn fractions<F: Field>(alloc: Global, list: &[F]) -> Result<Vector, NoMemory>
    ensures same { IfOk result (λ vector. vector ≡ map F.value list.now) }
    ensures held { OnOk result (All (λ q. IsTrue (F.holds q)) (map F.value list.now)) }
{
    let mut vector = Items::new(alloc);
    for x in list {
        vector.push(fraction(*x))?;
    }
    Ok(vector)
}

/// Rows of numbers as vectors of fractions.
pub(crate) fn row_vectors<F: Field>(alloc: Global, rows: &Rows<F>) -> Result<Vectors, NoMemory>
    ensures { IfOk result (λ vectors. vectors ≡ numbers F.value rows.now.list) }
{
    let mut vectors = Items::new(alloc);
    for k in 0..rows.count() {
        vectors.push(fractions(alloc, rows.row(k + 1))?)?;
    }
    Ok(vectors)
}

/// An operation of a field as one of fractions.
pub fn operation<F: Field>(left: Left<F>) -> Left<Frac>
    ensures same { result ≡ in_numbers F.value left }
    ensures held { IsTrue (F.holds (F.value left.a)) }
{
    Left {
        op: left.op,
        a: fraction(left.a),
        b: frac_of(left.b),
    }
}
