//! The program of a weight solved.
ghost use Rattle.std.specs.Prelude.{◌≡◌, [], map, length, IfOk, IfErr};
ghost use Rattle.benson_program.specs.Ends.{StandForSome};
ghost use Rattle.exact_simplex.specs.Ends.{IsCertified, IsReadOff};
ghost use Rattle.overflows.specs.Base.{IsBaseWeight};
ghost use Rattle.overflows.specs.Dictionaries.{IsAllowed, system_in};
ghost use Rattle.overflows.specs.Settings.{Knows, Setting};
ghost use Rattle.lp_form.specs.Data.{IsDataOf};
ghost use Rattle.lp_form.specs.Names.{HasWidths, named};
ghost use Rattle.lp_form.specs.Programs.{named_system};
ghost use Rattle.lp_form.specs.declared.name.LpName.TheVariants as name_of;
ghost use Rattle.overflows.specs.Faults.{Overflows};
ghost use Rattle.vlp_problem.specs.declared.problem.Problem.{Problem as File};
ghost use Rattle.lower_image.specs.Ends.{CanWeigh, IsWeightEnd};

use crate::ends::WeightEnd;
use crate::kept::KeptWeights;
use exact_field::Field;
use exact_simplex::{LpEnd, solve_lp_from};
use lp_form::{Data, LpName, program};
use overflows::{SolveFault, program_fault};
use src_sink::{Items, NoMemory};
use std::alloc::Global;

/// How a named program ends by pivots of its table, from the columns of a hint.
fn pivoted_end<F: Field>(
    alloc: Global,
    form: &Data<F>,
    c: &[F],
    name: &LpName<F>,
    columns: &[u32],
) -> Result<LpEnd<F>, SolveFault>
    requires stands { StandForSome F.value form.now }
    requires widths { HasWidths (length form.now.p) c.now name.now }
    ensures certified { (file : File) → IsDataOf F.value file form.now
        → IfOk result (IsCertified F.value (named_system file (map F.value c.now)
        (named F.value name.now))) }
    ensures read_off { (file : File) → IsDataOf F.value file form.now
        → IfOk result (IsReadOff F.value (named_system file (map F.value c.now)
        (named F.value name.now))) }
    ensures left { (s : Setting) → IsDataOf F.value s.file form.now
        → IsAllowed s (named F.value name.now)
        → named_system s.file (map F.value c.now) (named F.value name.now) ≡ system_in s
        (named F.value name.now)
        → IfErr result (Overflows F.holds s []) }
{
    let system = program(alloc, form, c, name)?;
    match solve_lp_from(alloc, &system, columns) {
        Ok(end) => Ok(end),
        Err(fault) => Err(program_fault(alloc, name, fault, Items::new(alloc))),
    }
}

/// How a named program ends: as a guess shows, or else by pivots, from the last basis.
fn named_end<F: Field>(
    alloc: Global,
    form: &Data<F>,
    c: &[F],
    name: &LpName<F>,
    kept: &mut KeptWeights<F>,
) -> Result<LpEnd<F>, SolveFault>
    requires stands { StandForSome F.value form.now }
    requires widths { HasWidths (length form.now.p) c.now name.now }
    ensures certified { (file : File) → IsDataOf F.value file form.now
        → IfOk result (IsCertified F.value (named_system file (map F.value c.now)
        (named F.value name.now))) }
    ensures read_off { (file : File) → IsDataOf F.value file form.now
        → IfOk result (IsReadOff F.value (named_system file (map F.value c.now)
        (named F.value name.now))) }
    ensures left { (s : Setting) → IsDataOf F.value s.file form.now
        → IsAllowed s (named F.value name.now)
        → named_system s.file (map F.value c.now) (named F.value name.now) ≡ system_in s
        (named F.value name.now)
        → IfErr result (Overflows F.holds s []) }
{
    match kept.guesses.guessed_end(alloc, form, c, name)? {
        Some(end) => Ok(end),
        None => pivoted_end(alloc, form, c, name, kept.basis.as_slice()),
    }
}

/// The name of the program of a weight.
pub(crate) fn weight_name<F: Field>(alloc: Global, w: &[F]) -> Result<LpName<F>, NoMemory>
    ensures { IfOk result (λ name. name ≡ name_of.Weight w.now) }
{
    let mut weight = Items::new(alloc);
    weight.append(w)?;
    Ok(LpName::Weight { w: weight })
}

/// How the program of the weight `w` ends. `c` is the duality vector. From what is kept of the
/// program of another weight the end is guessed; where no guess is shown to be right, the table is
/// pivoted from the last basis on, since w stands on the right side alone.
pub fn weight_end<F: Field>(
    alloc: Global,
    form: &Data<F>,
    c: &[F],
    w: &[F],
    kept: &mut KeptWeights<F>,
) -> Result<WeightEnd<F>, SolveFault>
    requires c { length c.now ≡ length form.now.p }
    requires w { length w.now ≡ length form.now.p }
    requires solvable { CanWeigh F.value form.now }
    ensures ok { (file : File) → IsDataOf F.value file form.now
        → IfOk result (IsWeightEnd F.value file (map F.value w.now)) }
    ensures left { (s : Setting) → IsDataOf F.value s.file form.now → Knows s (map F.value c.now)
        → IsBaseWeight s.file (map F.value c.now) (map F.value w.now)
        → IfErr result (Overflows F.holds s []) }
{
    let name = weight_name(alloc, w)?;
    match named_end(alloc, form, c, &name, kept)? {
        LpEnd::Optimal { x, dual, basis } => Ok(WeightEnd::Optimal { z: x, dual, basis }),
        LpEnd::Infeasible { farkas, basis } => Ok(WeightEnd::Empty {
            dual: farkas,
            basis,
        }),
        LpEnd::Unbounded { .. } => unreachable!(),
    }
}
