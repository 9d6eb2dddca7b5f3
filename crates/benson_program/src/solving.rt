//! Programs of the sides solved.
ghost use Rattle.std.specs.Prelude.{◌≡◌, [], map, length, IfOk, IfErr};
ghost use Rattle.benson_program.specs.Ends.{CanStart, IsBensonEnd, IsFeasibleEnd, IsPivotOfFeasible, StandForSome};
ghost use Rattle.exact_simplex.specs.Ends.{IsCertified, IsLpFault, IsReadOff};
ghost use Rattle.overflows.specs.Base.{IsBaseStart};
ghost use Rattle.overflows.specs.Dictionaries.{IsAllowed, system_in};
ghost use Rattle.overflows.specs.Settings.{Knows, Setting};
ghost use Rattle.lp_form.specs.Data.{IsDataOf};
ghost use Rattle.lp_form.specs.Names.{HasWidths, named};
ghost use Rattle.lp_form.specs.Programs.{named_system};
ghost use Rattle.lp_form.specs.declared.name.LpName.TheVariants as name_of;
ghost use Rattle.overflows.specs.Faults.{OnLicence, Overflows};
ghost use Rattle.vlp_problem.specs.declared.problem.Problem.{Problem as File};

use crate::ends::{BensonEnd, FeasibleEnd};
use crate::kept::Kept;
use crate::written::{Written, pivot_benson};
use exact_field::Field;
use exact_simplex::{LpEnd, LpFault, solve_lp};
use lp_form::{Data, LpName, program};
use overflows::{SolveFault, program_fault};
use src_sink::{Items, NoMemory};
use std::alloc::Global;

/// How a named program ends by pivots of its table: Benson's from where the last one ended.
fn pivot_program<F: Field>(
    alloc: Global,
    form: &Data<F>,
    c: &[F],
    name: &LpName<F>,
    written: &mut Option<Written<F>>,
) -> Result<LpEnd<F>, LpFault<F>>
    requires stands { StandForSome F.value form.now }
    requires widths { HasWidths (length form.now.p) c.now name.now }
    ensures certified { (file : File) → IsDataOf F.value file form.now
        → IfOk result
        (IsCertified F.value (named_system file (map F.value c.now) (named F.value name.now))) }
    ensures read_off { (file : File) → IsDataOf F.value file form.now
        → IfOk result
        (IsReadOff F.value (named_system file (map F.value c.now) (named F.value name.now))) }
    ensures left { (file : File) → IsDataOf F.value file form.now
        → IfErr result (IsLpFault F.value F.holds
        (named_system file (map F.value c.now) (named F.value name.now))) }
{
    if let LpName::Benson { v, t } = name {
        return pivot_benson(alloc, form, c, v.as_slice(), *t, written);
    }
    let system = program(alloc, form, c, name)?;
    solve_lp(alloc, &system)
}

/// The same, with its fault as a licence.
fn pivot_end<F: Field>(
    alloc: Global,
    form: &Data<F>,
    c: &[F],
    name: &LpName<F>,
    written: &mut Option<Written<F>>,
) -> Result<LpEnd<F>, SolveFault>
    requires stands { StandForSome F.value form.now }
    requires widths { HasWidths (length form.now.p) c.now name.now }
    ensures certified { (file : File) → IsDataOf F.value file form.now
        → IfOk result
        (IsCertified F.value (named_system file (map F.value c.now) (named F.value name.now))) }
    ensures read_off { (file : File) → IsDataOf F.value file form.now
        → IfOk result
        (IsReadOff F.value (named_system file (map F.value c.now) (named F.value name.now))) }
    ensures left { (s : Setting) → IsDataOf F.value s.file form.now
        → IsAllowed s (named F.value name.now)
        → named_system s.file (map F.value c.now) (named F.value name.now)
        ≡ system_in s (named F.value name.now) → IfErr result (Overflows F.holds s []) }
    ensures place { name.now ≡ name_of.Feasible →
        IfErr result (λ fault. OnLicence fault (λ l. IsPivotOfFeasible l.place)) }
{
    match pivot_program(alloc, form, c, name, written) {
        Ok(end) => Ok(end),
        Err(fault) => Err(program_fault(alloc, name, fault, Items::new(alloc))),
    }
}

/// How a named program ends: as a guess shows, or else by the table.
fn named_end<F: Field>(
    alloc: Global,
    form: &Data<F>,
    c: &[F],
    name: &LpName<F>,
    kept: &mut Kept<F>,
) -> Result<LpEnd<F>, SolveFault>
    requires stands { StandForSome F.value form.now }
    requires widths { HasWidths (length form.now.p) c.now name.now }
    ensures certified { (file : File) → IsDataOf F.value file form.now
        → IfOk result
        (IsCertified F.value (named_system file (map F.value c.now) (named F.value name.now))) }
    ensures read_off { (file : File) → IsDataOf F.value file form.now
        → IfOk result
        (IsReadOff F.value (named_system file (map F.value c.now) (named F.value name.now))) }
    ensures left { (s : Setting) → IsDataOf F.value s.file form.now
        → IsAllowed s (named F.value name.now)
        → named_system s.file (map F.value c.now) (named F.value name.now)
        ≡ system_in s (named F.value name.now) → IfErr result (Overflows F.holds s []) }
    ensures place { name.now ≡ name_of.Feasible →
        IfErr result (λ fault. OnLicence fault (λ l. IsPivotOfFeasible l.place)) }
{
    match kept.guessed_end(alloc, form, c, name)? {
        Some(end) => Ok(end),
        None => pivot_end(alloc, form, c, name, &mut kept.written),
    }
}

/// Whether the sides contradict each other, with what shows it: multipliers, or a point that meets
/// them all.
pub fn feasible_end<F: Field>(alloc: Global, form: &Data<F>) -> Result<FeasibleEnd<F>, SolveFault>
    requires { StandForSome F.value form.now }
    ensures ok { (file : File) → IsDataOf F.value file form.now
        → IfOk result (IsFeasibleEnd F.value file) }
    ensures left { (s : Setting) → IsDataOf F.value s.file form.now
        → IfErr result (Overflows F.holds s []) }
    ensures place { IfErr result (λ fault. OnLicence fault (λ l. IsPivotOfFeasible l.place)) }
{
    let name = LpName::Feasible;
    let mut kept = Kept::new(alloc);
    match named_end(alloc, form, &[], &name, &mut kept)? {
        LpEnd::Optimal { dual, .. } => Ok(FeasibleEnd::Point { x: dual }),
        LpEnd::Unbounded { ray, .. } => Ok(FeasibleEnd::Contradiction { u: ray }),
        LpEnd::Infeasible { .. } => unreachable!(),
    }
}

/// The name of Benson's program at `v`.
pub(crate) fn benson_name<F: Field>(alloc: Global, v: &[F], t: bool) -> Result<LpName<F>, NoMemory>
    ensures { IfOk result (λ name. name ≡ name_of.Benson v.now t) }
{
    let mut start = Items::new(alloc);
    start.append(v)?;
    Ok(LpName::Benson { v: start, t })
}

/// How Benson's program at `v` ends, a point where `t` and else a direction, from where the last
/// one ended: its equations are the same at each `v`. `c` is the duality vector.
pub fn benson_end<F: Field>(
    alloc: Global,
    form: &Data<F>,
    c: &[F],
    v: &[F],
    t: bool,
    kept: &mut Kept<F>,
) -> Result<BensonEnd<F>, SolveFault>
    requires c { length c.now ≡ length form.now.p }
    requires v { length v.now ≡ length form.now.p }
    requires start { CanStart F.value form.now (map F.value c.now) t }
    ensures ok { (file : File) → IsDataOf F.value file form.now
        → IfOk result (IsBensonEnd F.value file (map F.value c.now) (map F.value v.now) t) }
    ensures left { (s : Setting) → IsDataOf F.value s.file form.now → Knows s (map F.value c.now)
        → IsBaseStart s.file.objs s.trail (map F.value v.now) t
        → IfErr result (Overflows F.holds s []) }
{
    let name = benson_name(alloc, v, t)?;
    match named_end(alloc, form, c, &name, kept)? {
        LpEnd::Optimal { x, dual, basis } => Ok(BensonEnd::Optimal { z: x, dual, basis }),
        LpEnd::Infeasible { farkas, basis } => Ok(BensonEnd::Empty {
            dual: farkas,
            basis,
        }),
        LpEnd::Unbounded { .. } => unreachable!(),
    }
}
