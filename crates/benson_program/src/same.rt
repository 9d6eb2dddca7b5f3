//! Data copied, and known again.
ghost use Rattle.std.specs.Prelude.{◌≡◌, IfOk, IsTrue};
ghost use Rattle.benson_program.specs.Written.{HasSameData};

use exact_field::Field;
use lp_form::{At, ConeOf, Data, SideOf};
use src_sink::{Items, NoMemory};
use std::alloc::Global;

pub(crate) fn copy<T: Copy>(alloc: Global, list: &[T]) -> Result<Items<T>, NoMemory>
    ensures { IfOk result (λ copy. copy ≡ list.now) }
{
    let mut copy = Items::new(alloc);
    copy.append(list)?;
    Ok(copy)
}

fn copies<T: Copy>(alloc: Global, lists: &[Items<T>]) -> Result<Items<Items<T>>, NoMemory>
    ensures { IfOk result (λ copies. copies ≡ lists.now) }
{
    let mut copies = Items::new(alloc);
    for list in lists {
        copies.push(copy(alloc, list.as_slice())?)?;
    }
    Ok(copies)
}

fn copy_sides<F: Field>(alloc: Global, sides: &[SideOf<F>]) -> Result<Items<SideOf<F>>, NoMemory>
    ensures { IfOk result (λ copies. copies ≡ sides.now) }
{
    let mut copies = Items::new(alloc);
    for side in sides {
        let g = copy(alloc, side.g.as_slice())?;
        copies.push(SideOf { g, beta: side.beta })?;
    }
    Ok(copies)
}

fn copy_cone<F: Field>(alloc: Global, cone: &ConeOf<F>) -> Result<ConeOf<F>, NoMemory>
    ensures { IfOk result (λ copy. copy ≡ cone.now) }
{
    match cone {
        ConeOf::Orthant => Ok(ConeOf::Orthant),
        ConeOf::Gens(vectors) => Ok(ConeOf::Gens(copies(alloc, vectors.as_slice())?)),
        ConeOf::Dual(vectors) => Ok(ConeOf::Dual(copies(alloc, vectors.as_slice())?)),
    }
}

/// A copy of a duality vector.
fn copy_duality<F: Field>(
    alloc: Global,
    duality: &Option<Items<F>>,
) -> Result<Option<Items<F>>, NoMemory>
    ensures { IfOk result (λ copy. copy ≡ duality.now) }
{
    match duality {
        Some(vector) => Ok(Some(copy(alloc, vector.as_slice())?)),
        None => Ok(None),
    }
}

/// Whether two numbers are the same.
fn is_same_number<F: Field>(one: F, other: F) -> bool
    ensures { IsTrue result → one ≡ other }
{
    one == other
}

/// Whether two vectors are the same.
pub(crate) fn is_same_vector<F: Field>(one: &[F], other: &[F]) -> bool
    ensures { IsTrue result → one.now ≡ other.now }
{
    if one.len() != other.len() {
        return false;
    }
    for (x, y) in one.iter().zip(other) {
        if !is_same_number(*x, *y) {
            return false;
        }
    }
    true
}

/// Whether two lists of vectors are the same.
fn are_same_vectors<F: Field>(one: &[Items<F>], other: &[Items<F>]) -> bool
    ensures { IsTrue result → one.now ≡ other.now }
{
    if one.len() != other.len() {
        return false;
    }
    for (vector, like) in one.iter().zip(other) {
        if !is_same_vector(vector.as_slice(), like.as_slice()) {
            return false;
        }
    }
    true
}

/// Whether two sparse rows are the same, entry by entry.
fn is_same_line<F: Field>(one: &[At<F>], other: &[At<F>]) -> bool
    ensures { IsTrue result → one.now ≡ other.now }
{
    if one.len() != other.len() {
        return false;
    }
    for (entry, like) in one.iter().zip(other) {
        if entry.at != like.at || !is_same_number(entry.value, like.value) {
            return false;
        }
    }
    true
}

/// Whether two lists of sparse rows are the same.
fn are_same_lines<F: Field>(one: &[Items<At<F>>], other: &[Items<At<F>>]) -> bool
    ensures { IsTrue result → one.now ≡ other.now }
{
    if one.len() != other.len() {
        return false;
    }
    for (line, like) in one.iter().zip(other) {
        if !is_same_line(line.as_slice(), like.as_slice()) {
            return false;
        }
    }
    true
}

/// Whether two lists of sides are the same.
fn are_same_sides<F: Field>(one: &[SideOf<F>], other: &[SideOf<F>]) -> bool
    ensures { IsTrue result → one.now ≡ other.now }
{
    if one.len() != other.len() {
        return false;
    }
    for (side, like) in one.iter().zip(other) {
        if !is_same_number(side.beta, like.beta)
            || !is_same_line(side.g.as_slice(), like.g.as_slice())
        {
            return false;
        }
    }
    true
}

/// Whether two cones are given in the same way.
fn is_same_cone<F: Field>(one: &ConeOf<F>, other: &ConeOf<F>) -> bool
    ensures { IsTrue result → one.now ≡ other.now }
{
    match (one, other) {
        (ConeOf::Orthant, ConeOf::Orthant) => true,
        (ConeOf::Gens(vectors), ConeOf::Gens(others)) => {
            are_same_vectors(vectors.as_slice(), others.as_slice())
        }
        (ConeOf::Dual(vectors), ConeOf::Dual(others)) => {
            are_same_vectors(vectors.as_slice(), others.as_slice())
        }
        _ => false,
    }
}

/// Whether two duality vectors are the same, or none is given in both.
fn is_same_duality<F: Field>(one: &Option<Items<F>>, other: &Option<Items<F>>) -> bool
    ensures { IsTrue result → one.now ≡ other.now }
{
    match (one, other) {
        (None, None) => true,
        (Some(vector), Some(other)) => is_same_vector(vector.as_slice(), other.as_slice()),
        _ => false,
    }
}

pub(crate) fn copy_data<F: Field>(alloc: Global, form: &Data<F>) -> Result<Data<F>, NoMemory>
    ensures { IfOk result (HasSameData form.now) }
{
    let sides = copy_sides(alloc, form.sides.as_slice())?;
    let p = copies(alloc, form.p.as_slice())?;
    let cone = copy_cone(alloc, &form.cone)?;
    let duality = copy_duality(alloc, &form.duality)?;
    Ok(Data {
        cols: form.cols,
        sides,
        p,
        cone,
        duality,
    })
}

/// Whether two are the same data. The cost is that of their entries that are not 0.
pub(crate) fn is_same_data<F: Field>(one: &Data<F>, other: &Data<F>) -> bool
    ensures { IsTrue result → HasSameData one.now other.now }
{
    one.cols == other.cols
        && is_same_duality(&one.duality, &other.duality)
        && is_same_cone(&one.cone, &other.cone)
        && are_same_lines(one.p.as_slice(), other.p.as_slice())
        && are_same_sides(one.sides.as_slice(), other.sides.as_slice())
}
