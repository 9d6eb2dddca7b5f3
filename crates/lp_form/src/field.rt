//! Lists of a problem in a field that holds their numbers.
ghost use Rattle.std.specs.Prelude.{◌≡◌, All, length, map, IfOk, IsTrue};
ghost use Rattle.frac128.specs.declared.vectors.Spot.{Spot};
ghost use Rattle.lin_rows.specs.Lines.{entries};
ghost use Rattle.lin_rows.specs.Read.{numbers};
ghost use Rattle.upper_image.specs.Spots.{entry_of};
ghost use Rattle.vlp_problem.specs.Values.{cone_vectors, duality_entries};
ghost use Rattle.lp_form.specs.Data.{cone_of, duality_of};

use crate::data::{At, ConeOf, SideOf};
use crate::numbers::to_field;
use exact_field::Field;
use frac128::{Frac, Sparse, Spot, Vector};
use src_sink::{Items, NoMemory};
use std::alloc::Global;
use vlp_problem::Cone;

/// A vector in the field.
fn vector_in<F: Field>(alloc: Global, vector: &[Frac]) -> Result<Items<F>, NoMemory>
    requires { All (λ q. IsTrue (F.holds q)) vector.now }
    ensures { IfOk result (λ list. map F.value list ≡ vector.now) }
{
    let mut list = Items::new(alloc);
    for number in vector {
        list.push(to_field::<F>(*number))?;
    }
    Ok(list)
}

/// Vectors in the field.
fn vectors_in<F: Field>(alloc: Global, vectors: &[Vector]) -> Result<Items<Items<F>>, NoMemory>
    requires { All (λ v. All (λ q. IsTrue (F.holds q)) v) vectors.now }
    ensures { IfOk result (λ lists. numbers F.value lists ≡ vectors.now) }
{
    let mut lists = Items::new(alloc);
    for vector in vectors {
        lists.push(vector_in(alloc, vector.as_slice())?)?;
    }
    Ok(lists)
}

/// A cone in the field.
pub fn cone_in<F: Field>(alloc: Global, cone: &Cone) -> Result<ConeOf<F>, NoMemory>
    requires { All (λ v. All (λ q. IsTrue (F.holds q)) v) (cone_vectors cone.now) }
    ensures { IfOk result (λ c. cone_of F.value c ≡ cone.now) }
{
    match cone {
        Cone::Orthant => Ok(ConeOf::Orthant),
        Cone::Gens(vectors) => Ok(ConeOf::Gens(vectors_in(alloc, vectors.as_slice())?)),
        Cone::Dual(vectors) => Ok(ConeOf::Dual(vectors_in(alloc, vectors.as_slice())?)),
    }
}

/// A duality vector in the field.
pub fn duality_in<F: Field>(
    alloc: Global,
    duality: &Option<Vector>,
) -> Result<Option<Items<F>>, NoMemory>
    requires { All (λ q. IsTrue (F.holds q)) (duality_entries duality.now) }
    ensures { IfOk result (λ f. duality_of F.value f ≡ duality.now) }
{
    match duality {
        Some(vector) => Ok(Some(vector_in(alloc, vector.as_slice())?)),
        None => Ok(None),
    }
}

/// A sparse vector in the field.
fn line_in<F: Field>(alloc: Global, spots: &[Spot]) -> Result<Items<At<F>>, NoMemory>
    requires { All (λ s. IsTrue (F.holds s.value)) spots.now }
    ensures { IfOk result (λ line. entries F.value line ≡ map entry_of spots.now) }
{
    let mut line = Items::new(alloc);
    for spot in spots {
        let value = to_field::<F>(spot.value);
        line.push(At { at: spot.at, value })?;
    }
    Ok(line)
}

/// Sparse vectors in the field.
pub fn lines_in<F: Field>(alloc: Global, rows: &[Sparse]) -> Result<Items<Items<At<F>>>, NoMemory>
    requires { All (λ r. All (λ s. IsTrue (F.holds s.value)) r) rows.now }
    ensures { IfOk result (λ lines. map (entries F.value) lines ≡ map (map entry_of) rows.now) }
{
    let mut lines = Items::new(alloc);
    for row in rows {
        lines.push(line_in(alloc, row.as_slice())?)?;
    }
    Ok(lines)
}

/// Sides in the field, from their vectors and bounds.
pub fn sides_in<F: Field>(
    alloc: Global,
    rows: &[Sparse],
    bounds: &[Frac],
) -> Result<Items<SideOf<F>>, NoMemory>
    requires one_each { length rows.now ≡ length bounds.now }
    requires rows { All (λ r. All (λ s. IsTrue (F.holds s.value)) r) rows.now }
    requires bounds { All (λ q. IsTrue (F.holds q)) bounds.now }
    ensures vectors { IfOk result
        (λ sides. map (λ s. entries F.value s.g) sides ≡ map (map entry_of) rows.now) }
    ensures bounds { IfOk result (λ sides. map (λ s. F.value s.beta) sides ≡ bounds.now) }
{
    let mut sides = Items::new(alloc);
    for i in 0..bounds.len() {
        let g = line_in(alloc, rows[i].as_slice())?;
        let beta = to_field::<F>(bounds[i]);
        sides.push(SideOf { g, beta })?;
    }
    Ok(sides)
}
