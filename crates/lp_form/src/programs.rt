//! The programs by their names.
ghost use Rattle.std.specs.Prelude.{◌≡◌, ◌++◌, List, map, length, IfOk, OnOk, if◌then◌else◌};
ghost use Rattle.exact_field.specs.Rational.{ℚ};
ghost use Rattle.polyhedra.specs.Vectors.{zeros as zero_vector};
ghost use Rattle.vlp_problem.specs.Sides.{side_bounds};
ghost use Rattle.vlp_problem.specs.declared.problem.Problem.{Problem as File};
ghost use Rattle.lp_form.specs.Building.{IsWritten};
ghost use Rattle.lp_form.specs.Data.{IsDataOf};
ghost use Rattle.lp_form.specs.Names.{HasWidths, named};
ghost use Rattle.lp_form.specs.Programs.{benson_system, feasible_system, named_system, side_total, weight_system};

use crate::cone::{interior_system, pointed_system};
use crate::data::Data;
use crate::equations::{
    dual_equations, dual_unknowns, push_balances, push_entries_of_w, push_members,
    push_side_columns, push_weight_members, system, weight_equations, weight_unknowns,
};
use crate::name::LpName;
use crate::pieces::{negative, push_bounds, push_difference, push_on_w, push_zeros, zeros};
use exact_field::Field;
use lin_rows::System;
use src_sink::{Items, NoMemory};
use std::alloc::Global;

/// Whether the sides contradict each other.
fn feasible_system<F: Field>(alloc: Global, form: &Data<F>) -> Result<System<F>, NoMemory>
    ensures { (file : File) → IsDataOf F.value file form.now
        → IfOk result (IsWritten F.value (feasible_system file)) }
{
    let mut a = Items::new(alloc);
    push_side_columns(&mut a, form)?;
    let mut b = Items::new(alloc);
    push_zeros(&mut b, form.cols)?;
    let mut cost = Items::new(alloc);
    push_bounds(&mut cost, form.sides.as_slice())?;
    Ok(system(a, b, cost))
}

/// Appends the bounds of the sides, or zeros.
fn push_side_costs<F: Field>(
    list: &mut Items<F>,
    form: &Data<F>,
    bounds: bool,
) -> Result<(), NoMemory>
    ensures { (file : File) → IsDataOf F.value file form.now
        → OnOk result (map F.value list.new
        ≡ map F.value list.old
        ++ (if bounds then side_bounds file else zero_vector (side_total file))) }
{
    if bounds {
        push_bounds(list, form.sides.as_slice())
    } else {
        push_zeros(list, form.sides.len() as u32)
    }
}

/// The cost of Benson's program at `v`: its equations and right sides are the same at each.
pub fn benson_cost<F: Field>(
    alloc: Global,
    form: &Data<F>,
    v: &[F],
    t: bool,
) -> Result<Items<F>, NoMemory>
    ensures { (file : File) (c : List ℚ) → IsDataOf F.value file form.now →
        IfOk result (λ cost. map F.value cost ≡ (benson_system file c (map F.value v.now) t).cost) }
{
    let mut cost = Items::new(alloc);
    push_side_costs(&mut cost, form, t)?;
    let w = negative(alloc, v)?;
    push_difference(&mut cost, w.as_slice())?;
    push_zeros(&mut cost, dual_unknowns(form.p.len() as u32, &form.cone))?;
    Ok(cost)
}

/// Benson's program at `v`.
fn benson_system<F: Field>(
    alloc: Global,
    form: &Data<F>,
    c: &[F],
    v: &[F],
    t: bool,
) -> Result<System<F>, NoMemory>
    requires c { length c.now ≡ length form.now.p }
    requires v { length v.now ≡ length form.now.p }
    ensures { (file : File) → IsDataOf F.value file form.now
        → IfOk result
        (IsWritten F.value (benson_system file (map F.value c.now) (map F.value v.now) t)) }
{
    let m = form.sides.len() as u32;
    let q = form.p.len() as u32;
    let more = dual_unknowns(q, &form.cone);
    let after = zeros(alloc, more)?;
    let mut a = Items::new(alloc);
    push_balances(alloc, &mut a, form, more)?;
    push_members(alloc, &mut a, m, q, &form.cone)?;
    push_on_w(&mut a, m, c, after.as_slice())?;
    let mut b = Items::new(alloc);
    push_zeros(&mut b, form.cols)?;
    push_zeros(&mut b, dual_equations(q, &form.cone))?;
    b.push(F::one())?;
    let cost = benson_cost(alloc, form, v, t)?;
    Ok(system(a, b, cost))
}

/// The best bound of a weight vector.
fn weight_system<F: Field>(alloc: Global, form: &Data<F>, w: &[F]) -> Result<System<F>, NoMemory>
    requires { length w.now ≡ length form.now.p }
    ensures { (file : File) → IsDataOf F.value file form.now
        → IfOk result (IsWritten F.value (weight_system file (map F.value w.now))) }
{
    let m = form.sides.len() as u32;
    let q = form.p.len() as u32;
    let more = weight_unknowns(&form.cone);
    let after = zeros(alloc, more)?;
    let mut a = Items::new(alloc);
    push_balances(alloc, &mut a, form, more)?;
    push_entries_of_w(alloc, &mut a, m, q, after.as_slice())?;
    push_weight_members(alloc, &mut a, m, q, &form.cone)?;
    let mut b = Items::new(alloc);
    push_zeros(&mut b, form.cols)?;
    b.append(w)?;
    push_zeros(&mut b, weight_equations(q, &form.cone))?;
    let mut cost = Items::new(alloc);
    push_bounds(&mut cost, form.sides.as_slice())?;
    let no_cost = zeros(alloc, q)?;
    push_difference(&mut cost, no_cost.as_slice())?;
    push_zeros(&mut cost, more)?;
    Ok(system(a, b, cost))
}

/// The system of a named program, by no operation but `neg`. `c` is the duality vector, which only
/// `Benson` uses. The cost is the size of the system, which is dense: its equations times its
/// unknowns, and for each column of the problem a search in each side and each row of the
/// objectives.
pub fn program<F: Field>(
    alloc: Global,
    form: &Data<F>,
    c: &[F],
    name: &LpName<F>,
) -> Result<System<F>, NoMemory>
    requires { HasWidths (length form.now.p) c.now name.now }
    ensures { (file : File) → IsDataOf F.value file form.now
        → IfOk result
        (IsWritten F.value (named_system file (map F.value c.now) (named F.value name.now))) }
{
    let q = form.p.len() as u32;
    match name {
        LpName::Feasible => feasible_system(alloc, form),
        LpName::Benson { v, t } => benson_system(alloc, form, c, v.as_slice(), *t),
        LpName::Weight { w } => weight_system(alloc, form, w.as_slice()),
        LpName::Interior => interior_system(alloc, q, &form.cone, &form.duality),
        LpName::Pointed => pointed_system(alloc, q, &form.cone),
    }
}
