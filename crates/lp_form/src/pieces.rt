//! Pieces of equations: each call appends one to a list of coefficients.
ghost use Rattle.std.specs.Prelude.{◌≡◌, All, ℕ, if◌then◌else◌, ◌++◌, ◌≤◌, map, length, IfOk, OnOk, IsTrue};
ghost use Rattle.std.specs.List.{list_all};
ghost use Rattle.exact_field.specs.Rational.{zero_ℚ, one_ℚ, neg_ℚ};
ghost use Rattle.polyhedra.specs.Negatives.{negated};
ghost use Rattle.polyhedra.specs.Vectors.{zeros as zero_vector};
ghost use Rattle.tableaux.specs.Table.{column_of, unit as unit_vector};
ghost use Rattle.lin_rows.specs.Lines.{entries, sum_at};
ghost use Rattle.lin_rows.specs.Read.{numbers};
ghost use Rattle.lp_form.specs.Programs.{on_parts};
ghost use Rattle.lp_form.specs.Shapes.{are_places};

use crate::data::{At, SideOf};
use exact_field::Field;
use lin_rows::spots::entry_at;
use src_sink::{Items, NoMemory};
use std::alloc::Global;

/// Appends `n` zeros.
pub fn push_zeros<F: Field>(list: &mut Items<F>, n: u32) -> Result<(), NoMemory>
    ensures { OnOk result (map F.value list.new ≡ map F.value list.old ++ zero_vector n) }
{
    for _k in 0..n {
        list.push(F::zero())?;
    }
    Ok(())
}

/// Appends the negative of each entry.
pub fn push_negated<F: Field>(list: &mut Items<F>, vector: &[F]) -> Result<(), NoMemory>
    ensures { OnOk result
        (map F.value list.new ≡ map F.value list.old ++ negated (map F.value vector.now)) }
{
    for x in vector {
        list.push((*x).neg())?;
    }
    Ok(())
}

/// Appends a vector and its negative: the coefficients of a difference of two lists of unknowns.
pub fn push_difference<F: Field>(list: &mut Items<F>, vector: &[F]) -> Result<(), NoMemory>
    ensures { OnOk result (map F.value list.new
        ≡ (map F.value list.old ++ map F.value vector.now) ++ negated (map F.value vector.now)) }
{
    list.append(vector)?;
    push_negated(list, vector)
}

/// The vector of `n` zeros.
pub fn zeros<F: Field>(alloc: Global, n: u32) -> Result<Items<F>, NoMemory>
    ensures { IfOk result (λ v. map F.value v ≡ zero_vector n) }
{
    let mut vector = Items::new(alloc);
    push_zeros(&mut vector, n)?;
    Ok(vector)
}

/// 1 at its own place, and 0 at another.
fn delta<F: Field>(own: bool) -> F
    ensures { F.value result ≡ (if own then one_ℚ else zero_ℚ) }
{
    if own { F::one() } else { F::zero() }
}

/// The vector with 1 at place `k` and 0 at the others.
pub fn unit<F: Field>(alloc: Global, n: u32, k: u32) -> Result<Items<F>, NoMemory>
    ensures { IfOk result (λ v. map F.value v ≡ unit_vector n k) }
{
    let mut vector = Items::new(alloc);
    for j in 0..n {
        vector.push(delta(j + 1 == k))?;
    }
    Ok(vector)
}

/// The negative of a vector.
pub fn negative<F: Field>(alloc: Global, vector: &[F]) -> Result<Items<F>, NoMemory>
    ensures { IfOk result (λ v. map F.value v ≡ negated (map F.value vector.now)) }
{
    let mut negative = Items::new(alloc);
    push_negated(&mut negative, vector)?;
    Ok(negative)
}

/// Entry `i` of each vector.
pub fn column<F: Field>(alloc: Global, vectors: &[Items<F>], i: u32) -> Result<Items<F>, NoMemory>
    requires low { 1 ≤ i }
    requires high { All (λ v. i ≤ length v) vectors.now }
    ensures { IfOk result (λ v. map F.value v ≡ column_of (numbers F.value vectors.now) i) }
{
    let mut column = Items::new(alloc);
    for vector in vectors {
        column.push(vector.as_slice()[i as usize - 1])?;
    }
    Ok(column)
}

/// Appends the entry of each side's vector at a place.
pub fn push_sides_at<F: Field>(
    list: &mut Items<F>,
    sides: &[SideOf<F>],
    place: u32,
) -> Result<(), NoMemory>
    ensures { (n : ℕ) → IsTrue (list_all (λ s. are_places n 0 s.g) sides.now)
        → OnOk result (map F.value list.new
        ≡ map F.value list.old ++ map (λ s. sum_at (entries F.value s.g) place) sides.now) }
{
    for side in sides {
        list.push(entry_at(side.g.as_slice(), place))?;
    }
    Ok(())
}

/// Appends the bound of each side.
pub fn push_bounds<F: Field>(list: &mut Items<F>, sides: &[SideOf<F>]) -> Result<(), NoMemory>
    ensures { OnOk result
        (map F.value list.new ≡ map F.value list.old ++ map (λ s. F.value s.beta) sides.now) }
{
    for side in sides {
        list.push(side.beta)?;
    }
    Ok(())
}

/// The negative of each row's entry at a place.
pub fn negative_at<F: Field>(
    alloc: Global,
    rows: &[Items<At<F>>],
    place: u32,
) -> Result<Items<F>, NoMemory>
    ensures { (n : ℕ) → IsTrue (list_all (are_places n 0) rows.now)
        → IfOk result
        (λ v. map F.value v ≡ map (λ r. neg_ℚ (sum_at (entries F.value r) place)) rows.now) }
{
    let mut column = Items::new(alloc);
    for row in rows {
        let value = entry_at(row.as_slice(), place);
        column.push(value.neg())?;
    }
    Ok(column)
}

/// Appends an equation on w and the unknowns after it, in which none of the `m` unknowns before w
/// has a part.
pub fn push_on_w<F: Field>(
    list: &mut Items<F>,
    m: u32,
    w: &[F],
    after: &[F],
) -> Result<(), NoMemory>
    ensures { OnOk result (map F.value list.new
        ≡ map F.value list.old
        ++ on_parts (zero_vector m) (map F.value w.now) (map F.value after.now)) }
{
    push_zeros(list, m)?;
    push_difference(list, w)?;
    list.append(after)
}
