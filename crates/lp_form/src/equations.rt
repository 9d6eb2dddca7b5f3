//! The equations that are common to the programs of the sides.
ghost use Rattle.std.specs.Prelude.{◌≡◌, ◌++◌, ◌≤◌, length, map, OnOk, IsTrue};
ghost use Rattle.tableaux.specs.Table.{System as NamedSystem, IsSystem, listed, unit as unit_vector};
ghost use Rattle.lin_rows.specs.Read.{numbers};
ghost use Rattle.polyhedra.specs.Vectors.{AreWide, zeros as zero_vector};
ghost use Rattle.vlp_problem.specs.Sides.{side_column};
ghost use Rattle.vlp_problem.specs.declared.problem.Cone.TheVariants as cone;
ghost use Rattle.vlp_problem.specs.declared.problem.Problem.{Problem as File};
ghost use Rattle.lp_form.specs.Building.{joined, IsWritten};
ghost use Rattle.lp_form.specs.Data.{IsDataOf, cone_of};
ghost use Rattle.lp_form.specs.Programs.{balances, dual_equations, dual_members, dual_unknowns, on_parts, weight_equations, weight_members, weight_unknowns};
ghost use Rattle.lp_form.specs.Shapes.{vectors_fit};

use crate::data::{ConeOf, Data};
use crate::pieces::{
    column, negative, negative_at, push_difference, push_on_w, push_sides_at, push_zeros, unit,
};
use exact_field::Field;
use lin_rows::System;
use src_sink::{Items, NoMemory};
use std::alloc::Global;

/// The program of these equations, one after the other, right sides and costs.
pub fn system<F: Field>(a: Items<F>, b: Items<F>, cost: Items<F>) -> System<F>
    ensures { (s : NamedSystem) → IsSystem s → map F.value a ≡ joined s.equations
        → map F.value b ≡ s.right → map F.value cost ≡ s.cost → IsWritten F.value s result }
{
    System {
        rows: b.len() as u32,
        cols: cost.len() as u32,
        a,
        b,
        cost,
    }
}

/// Appends an equation for each column: the sides times u are 0 there.
pub fn push_side_columns<F: Field>(list: &mut Items<F>, form: &Data<F>) -> Result<(), NoMemory>
    ensures { (file : File) → IsDataOf F.value file form.now
        → OnOk result (map F.value list.new
        ≡ map F.value list.old ++ joined (listed file.cols (side_column file))) }
{
    for j in 0..form.cols {
        push_sides_at(list, form.sides.as_slice(), j + 1)?;
    }
    Ok(())
}

/// Appends an equation for each column: the sides times u, less the objectives times w, are 0
/// there.
pub fn push_balances<F: Field>(
    alloc: Global,
    list: &mut Items<F>,
    form: &Data<F>,
    more: u32,
) -> Result<(), NoMemory>
    ensures { (file : File) → IsDataOf F.value file form.now
        → OnOk result (map F.value list.new ≡ map F.value list.old ++ joined (balances file more)) }
{
    for j in 0..form.cols {
        let w = negative_at(alloc, form.p.as_slice(), j + 1)?;
        push_sides_at(list, form.sides.as_slice(), j + 1)?;
        push_difference(list, w.as_slice())?;
        push_zeros(list, more)?;
    }
    Ok(())
}

/// Appends the equations that w has no negative entry.
fn push_entries<F: Field>(
    alloc: Global,
    list: &mut Items<F>,
    m: u32,
    q: u32,
) -> Result<(), NoMemory>
    ensures { OnOk result
        (map F.value list.new ≡ map F.value list.old ++ joined (dual_members m q cone.Orthant)) }
{
    for i in 0..q {
        let e = unit(alloc, q, i + 1)?;
        let minus = negative(alloc, e.as_slice())?;
        push_on_w(list, m, e.as_slice(), minus.as_slice())?;
    }
    Ok(())
}

/// Appends the equations that w has no negative product with a generator.
fn push_products<F: Field>(
    alloc: Global,
    list: &mut Items<F>,
    m: u32,
    vectors: &[Items<F>],
) -> Result<(), NoMemory>
    requires { length vectors.now ≤ 100000 }
    ensures { OnOk result (map F.value list.new
        ≡ map F.value list.old
        ++ joined (dual_members m 0 (cone.Gens (numbers F.value vectors.now)))) }
{
    let n = vectors.len() as u32;
    for g in 0..n {
        let e = unit(alloc, n, g + 1)?;
        let minus = negative(alloc, e.as_slice())?;
        push_on_w(list, m, vectors[g as usize].as_slice(), minus.as_slice())?;
    }
    Ok(())
}

/// Appends the equations that the vectors of the dual form combine to w.
fn push_combination<F: Field>(
    alloc: Global,
    list: &mut Items<F>,
    m: u32,
    q: u32,
    vectors: &[Items<F>],
) -> Result<(), NoMemory>
    requires { AreWide q (numbers F.value vectors.now) }
    ensures { OnOk result (map F.value list.new
        ≡ map F.value list.old
        ++ joined (dual_members m q (cone.Dual (numbers F.value vectors.now)))) }
{
    for i in 0..q {
        let e = unit(alloc, q, i + 1)?;
        let entries = column(alloc, vectors, i + 1)?;
        let minus = negative(alloc, entries.as_slice())?;
        push_on_w(list, m, e.as_slice(), minus.as_slice())?;
    }
    Ok(())
}

/// Appends the equations that w is in the dual cone.
pub fn push_members<F: Field>(
    alloc: Global,
    list: &mut Items<F>,
    m: u32,
    q: u32,
    cone: &ConeOf<F>,
) -> Result<(), NoMemory>
    requires { IsTrue (vectors_fit q cone.now) }
    ensures { OnOk result (map F.value list.new
        ≡ map F.value list.old ++ joined (dual_members m q (cone_of F.value cone.now))) }
{
    match cone {
        ConeOf::Orthant => push_entries(alloc, list, m, q),
        ConeOf::Gens(vectors) => push_products(alloc, list, m, vectors.as_slice()),
        ConeOf::Dual(vectors) => push_combination(alloc, list, m, q, vectors.as_slice()),
    }
}

/// Appends those of them that a fixed w asks for.
pub fn push_weight_members<F: Field>(
    alloc: Global,
    list: &mut Items<F>,
    m: u32,
    q: u32,
    cone: &ConeOf<F>,
) -> Result<(), NoMemory>
    requires { IsTrue (vectors_fit q cone.now) }
    ensures { OnOk result (map F.value list.new
        ≡ map F.value list.old ++ joined (weight_members m q (cone_of F.value cone.now))) }
{
    match cone {
        ConeOf::Orthant | ConeOf::Gens(_) => Ok(()),
        ConeOf::Dual(vectors) => push_combination(alloc, list, m, q, vectors.as_slice()),
    }
}

/// Appends the equations that w is this weight: one for each entry.
pub fn push_entries_of_w<F: Field>(
    alloc: Global,
    list: &mut Items<F>,
    m: u32,
    q: u32,
    after: &[F],
) -> Result<(), NoMemory>
    ensures { OnOk result (map F.value list.new
        ≡ map F.value list.old
        ++ joined (listed q
        (λ i. on_parts (zero_vector m) (unit_vector q i) (map F.value after.now)))) }
{
    for i in 0..q {
        let e = unit(alloc, q, i + 1)?;
        push_on_w(list, m, e.as_slice(), after)?;
    }
    Ok(())
}

/// How many unknowns the equations of `push_members` have after w.
pub fn dual_unknowns<F: Field>(q: u32, cone: &ConeOf<F>) -> u32
    ensures { result ≡ dual_unknowns q (cone_of F.value cone.now) }
{
    match cone {
        ConeOf::Orthant => q,
        ConeOf::Gens(vectors) | ConeOf::Dual(vectors) => vectors.len() as u32,
    }
}

/// How many equations they are.
pub fn dual_equations<F: Field>(q: u32, cone: &ConeOf<F>) -> u32
    ensures { result ≡ dual_equations q (cone_of F.value cone.now) }
{
    match cone {
        ConeOf::Orthant | ConeOf::Dual(_) => q,
        ConeOf::Gens(vectors) => vectors.len() as u32,
    }
}

/// How many unknowns the equations of `push_weight_members` have after w.
pub fn weight_unknowns<F: Field>(cone: &ConeOf<F>) -> u32
    ensures { result ≡ weight_unknowns (cone_of F.value cone.now) }
{
    match cone {
        ConeOf::Orthant | ConeOf::Gens(_) => 0,
        ConeOf::Dual(vectors) => vectors.len() as u32,
    }
}

/// How many equations they are.
pub fn weight_equations<F: Field>(q: u32, cone: &ConeOf<F>) -> u32
    ensures { result ≡ weight_equations q (cone_of F.value cone.now) }
{
    match cone {
        ConeOf::Orthant | ConeOf::Gens(_) => 0,
        ConeOf::Dual(_) => q,
    }
}
