//! The cut that an optimum of Benson's program is.
ghost use Rattle.std.specs.Prelude.{◌≡◌, ℕ, List, [], map, length, IfOk, IfErr};
ghost use Rattle.exact_field.specs.Rational.{ℚ};
ghost use Rattle.exact_field.specs.Vector.{dot};
ghost use Rattle.benson_program.specs.Cuts.{IsCutOf};
ghost use Rattle.benson_program.specs.Ends.{IsOptimumAt, StandForSome};
ghost use Rattle.overflows.specs.Products.{IsBaseU};
ghost use Rattle.overflows.specs.Settings.{Knows, Setting};
ghost use Rattle.lp_form.specs.Data.{IsDataOf};
ghost use Rattle.lp_form.specs.Programs.{benson_system};
ghost use Rattle.overflows.specs.Faults.{Overflows};
ghost use Rattle.vlp_problem.specs.Sides.{side_bounds};
ghost use Rattle.vlp_problem.specs.declared.problem.Problem.{Problem as File};

use crate::solving::benson_name;
use exact_field::Field;
use lp_form::{Cut, Data, SideOf, parts};
use overflows::{SolveFault, sum_of_products, term_fault};
use src_sink::{Items, NoMemory};
use std::alloc::Global;

/// The bounds of the sides.
fn bounds<F: Field>(alloc: Global, sides: &[SideOf<F>]) -> Result<Items<F>, NoMemory>
    ensures { IfOk result (λ bounds. map F.value bounds ≡ map (λ s. F.value s.beta) sides.now) }
{
    let mut bounds = Items::new(alloc);
    for side in sides {
        bounds.push(side.beta)?;
    }
    Ok(bounds)
}

/// The bound that multipliers of the sides prove.
fn bound_of<F: Field>(alloc: Global, form: &Data<F>, u: &[F]) -> Result<F, SolveFault>
    requires { length u.now ≡ length form.now.sides }
    ensures ok { (file : File) → IsDataOf F.value file form.now
        → IfOk result (λ gamma. F.value gamma ≡ dot (side_bounds file) (map F.value u.now)) }
    ensures left { (s : Setting) → IsDataOf F.value s.file form.now → IsBaseU s (map F.value u.now)
        → IfErr result (Overflows F.holds s []) }
{
    let bounds = bounds(alloc, form.sides.as_slice())?;
    match sum_of_products(bounds.as_slice(), u) {
        Ok(gamma) => Ok(gamma),
        Err(fault) => Err(term_fault(alloc, fault, Items::new(alloc))),
    }
}

/// The cut that an optimum `z` of Benson's program at `v` says: its w, without a sum, and the bound
/// that its u proves.
pub fn cut_of<F: Field>(
    alloc: Global,
    form: &Data<F>,
    c: &[F],
    v: &[F],
    t: bool,
    z: &[F],
) -> Result<Cut<F>, SolveFault>
    requires stands { StandForSome F.value form.now }
    requires c { length c.now ≡ length form.now.p }
    requires v { length v.now ≡ length form.now.p }
    requires optimum { (file : File) → IsDataOf F.value file form.now
        → (basis : List ℕ) × (y : List ℚ)
        × IsOptimumAt (benson_system file (map F.value c.now) (map F.value v.now) t) basis
        (map F.value z.now) y }
    ensures ok { (file : File) → IsDataOf F.value file form.now
        → IfOk result (IsCutOf F.value file (map F.value c.now) (map F.value z.now)) }
    ensures left { (s : Setting) → IsDataOf F.value s.file form.now → Knows s (map F.value c.now)
        → IfErr result (Overflows F.holds s []) }
{
    let name = benson_name(alloc, v, t)?;
    let read = parts(alloc, form, &name, z)?;
    let gamma = bound_of(alloc, form, read.u.as_slice())?;
    Ok(Cut {
        w: read.w,
        gamma,
        u: read.u,
        v: read.v,
    })
}
