//! What Benson's program says of a vector.
ghost use Rattle.std.specs.Prelude.{◌≡◌, ℕ, List, [], map, length, IfOk, IfErr};
ghost use Rattle.benson_program.specs.Ends.{IsOptimumAt};
ghost use Rattle.deriv_log.specs.declared.entry.Entry.{Entry};
ghost use Rattle.exact_field.specs.Rational.{ℚ};
ghost use Rattle.overflows.specs.Base.{IsBaseStart};
ghost use Rattle.lp_form.specs.Data.{IsDataOf};
ghost use Rattle.lp_form.specs.Programs.{benson_system};
ghost use Rattle.outer_approx.specs.Task.{IsFitting, Task, setting};
ghost use Rattle.overflows.specs.Faults.{Overflows};
ghost use Rattle.recession.specs.Asking.{IsAsked, IsProper};

use benson_program::{BensonEnd, Kept, benson_end, cut_of, preimage_of};
use exact_field::{Field, is_positive};
use lp_form::{Cut, Data, Preimage};
use overflows::SolveFault;
use src_sink::Items;
use std::alloc::Global;

/// What Benson's program says of a vector.
#[derive(Debug, Drop)]
pub enum Asked<F: Drop> {
    /// A cut that it does not meet.
    Cut(Cut<F>),
    /// What shows that it is in the image, or a direction in the recession cone.
    Reached(Preimage<F>),
}

/// What an optimum of Benson's program at `v` says: where its value, the last multiplier, is
/// positive a cut, and else a pre-image.
fn read_off<F: Field>(
    alloc: Global,
    form: &Data<F>,
    c: &[F],
    weights: &[F],
    v: &[F],
    t: bool,
    z: &[F],
    dual: &[F],
) -> Result<Asked<F>, SolveFault>
    ghost task: { Task }
    requires stands { IsDataOf F.value task.file form.now }
    requires c { map F.value c.now ≡ task.c }
    requires weights { map F.value weights.now ≡ task.weights }
    requires fitting { IsFitting F.holds task }
    requires v { length v.now ≡ task.file.objs }
    requires optimum { (basis : List ℕ)
        × IsOptimumAt (benson_system task.file task.c (map F.value v.now) t) basis
        (map F.value z.now) (map F.value dual.now) }
    ensures ok { IfOk result (IsAsked F.value task (map F.value v.now) t) }
    ensures left { (trail : List Entry) → IsBaseStart task.file.objs trail (map F.value v.now) t
        → IfErr result (Overflows F.holds (setting task trail) []) }
{
    if is_positive(dual[dual.len() - 1]) {
        let cut = cut_of(alloc, form, c, v, t, z)?;
        Ok(Asked::Cut(cut))
    } else {
        let parts = preimage_of(alloc, form, weights, dual)?;
        Ok(Asked::Reached(parts))
    }
}

/// Asks at `v`, a point where `t` and else a direction, whether the image has it: a cut, or a
/// pre-image. `c` is the duality vector, and the weights combine the generators of the ordering
/// cone to it. What is kept of the last program shortens this one.
pub fn ask<F: Field>(
    alloc: Global,
    form: &Data<F>,
    c: &[F],
    weights: &[F],
    v: &[F],
    t: bool,
    kept: &mut Kept<F>,
) -> Result<Asked<F>, SolveFault>
    ghost task: { Task }
    requires stands { IsDataOf F.value task.file form.now }
    requires c { map F.value c.now ≡ task.c }
    requires weights { map F.value weights.now ≡ task.weights }
    requires fitting { IsFitting F.holds task }
    requires v { length v.now ≡ task.file.objs }
    requires some { IsProper task }
    ensures ok { IfOk result (IsAsked F.value task (map F.value v.now) t) }
    ensures left { (trail : List Entry) → IsBaseStart task.file.objs trail (map F.value v.now) t
        → IfErr result (Overflows F.holds (setting task trail) []) }
{
    let end = benson_end(alloc, form, c, v, t, kept)?;
    match end {
        BensonEnd::Optimal { z, dual, .. } => {
            read_off(alloc, form, c, weights, v, t, z.as_slice(), dual.as_slice())
        }
        BensonEnd::Empty { .. } => unreachable!(),
    }
}
