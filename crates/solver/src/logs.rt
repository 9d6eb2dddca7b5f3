//! The log of a problem: by the approximation of the image or by that of the lower image.
ghost use Rattle.std.specs.Prelude.{◌≡◌, IfOk, IfErr, OnOk};
ghost use Rattle.benson_primal.specs.Logs.{IsOwnLogAnyhow};
ghost use Rattle.cone_dual.specs.Fitting.{IsDualityOf};
ghost use Rattle.cone_rules.specs.Faults.{IsSound};
ghost use Rattle.lp_form.specs.Data.{IsDataOf};
ghost use Rattle.overflows.specs.Faults.{OnLicence};
ghost use Rattle.solver.specs.Solving.{EndsIn, IsFacetLogAnyhow, LicensedInOrder};

use crate::end::SolveEnd;
use crate::ways::{Way, end_of};
use benson_dual::dual;
use cone_dual::{Duality, cone_facts};
use deriv_log::{Entries, Licence};
use exact_field::Field;
use lp_form::Data;
use overflows::SolveFault;
use std::alloc::Global;
use vlp_problem::Problem;

/// The log by this way, in the place of one that stopped at this overflow.
fn log_in_place_of<F: Field>(
    alloc: Global,
    problem: &Problem,
    form: &Data<F>,
    duality: &Duality<F>,
    way: Way,
    first: Licence,
) -> Result<Entries, SolveEnd>
    ghost file: { Problem }
    requires same { file ≡ problem.now }
    requires stands { IsDataOf F.value file form.now }
    requires duality { IsDualityOf F.value F.holds file duality.now }
    requires first { LicensedInOrder F.holds file first }
    ensures own { IfOk result (IsOwnLogAnyhow F.holds file) }
    ensures end { IfErr result (EndsIn F.holds file) }
{
    match way.log(alloc, problem, form, duality) {
        Ok(log) => Ok(log),
        Err(second) => Err(end_of(first, second)),
    }
}

/// The same, in the place of one that stopped at this fault: want of memory stays.
fn log_instead<F: Field>(
    alloc: Global,
    problem: &Problem,
    form: &Data<F>,
    duality: &Duality<F>,
    way: Way,
    fault: SolveFault,
) -> Result<Entries, SolveEnd>
    ghost file: { Problem }
    requires same { file ≡ problem.now }
    requires stands { IsDataOf F.value file form.now }
    requires duality { IsDualityOf F.value F.holds file duality.now }
    requires fault { OnLicence fault (LicensedInOrder F.holds file) }
    ensures own { IfOk result (IsOwnLogAnyhow F.holds file) }
    ensures end { IfErr result (EndsIn F.holds file) }
{
    match fault {
        SolveFault::Left(first) => log_in_place_of(alloc, problem, form, duality, way, first),
        SolveFault::NoMemory => Err(SolveEnd::NoMemory),
    }
}

/// The log by a duality vector: by the way that is gone first with so many objectives, and where
/// this overflows by the other.
fn log_by<F: Field>(
    alloc: Global,
    problem: &Problem,
    form: &Data<F>,
    duality: &Duality<F>,
) -> Result<Entries, SolveEnd>
    ghost file: { Problem }
    requires same { file ≡ problem.now }
    requires stands { IsDataOf F.value file form.now }
    requires duality { IsDualityOf F.value F.holds file duality.now }
    ensures own { IfOk result (IsOwnLogAnyhow F.holds file) }
    ensures end { IfErr result (EndsIn F.holds file) }
{
    let way = Way::first(form.p.len());
    match way.log(alloc, problem, form, duality) {
        Ok(log) => Ok(log),
        Err(fault) => log_instead(alloc, problem, form, duality, way.other(), fault),
    }
}

/// The log of a problem, by its data in some field: a duality vector, and then Benson's outer
/// approximation with it, up to four objectives that of the image and from five on that of the
/// lower image; where it overflows, the other. In place of a log comes the first fault of the
/// ordering cone, or the licence of the first overflow.
pub fn log_of<F: Field>(
    alloc: Global,
    problem: &Problem,
    form: &Data<F>,
) -> Result<Entries, SolveEnd>
    ghost file: { Problem }
    requires same { file ≡ problem.now }
    requires stands { IsDataOf F.value file form.now }
    ensures sound { OnOk result (IsSound file) }
    ensures own { IfOk result (IsOwnLogAnyhow F.holds file) }
    ensures end { IfErr result (EndsIn F.holds file) }
{
    let duality = cone_facts(alloc, form)?;
    log_by(alloc, problem, form, &duality)
}

/// The log of a problem over its facets, by its data in some field: a duality vector, and then
/// Benson's outer approximation of the lower image with it. In place of a log comes the first fault
/// of the ordering cone, or the licence of the first overflow.
pub fn dual_log_of<F: Field>(
    alloc: Global,
    problem: &Problem,
    form: &Data<F>,
) -> Result<Entries, SolveEnd>
    ghost file: { Problem }
    requires same { file ≡ problem.now }
    requires stands { IsDataOf F.value file form.now }
    ensures sound { OnOk result (IsSound file) }
    ensures own { IfOk result (IsFacetLogAnyhow F.holds file) }
    ensures end { IfErr result (EndsIn F.holds file) }
{
    let duality = cone_facts(alloc, form)?;
    let log = dual(alloc, form, &duality)?;
    Ok(log)
}
