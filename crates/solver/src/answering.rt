//! The solver.
ghost use Rattle.std.specs.Prelude.{◌≡◌, IfOk, IfErr, IfSome, IsTrue};
ghost use Rattle.frac128.specs.Held.{is_held};
ghost use Rattle.cone_dual.specs.Fitting.{IsDualityOf};
ghost use Rattle.cone_rules.specs.Faults.{IsSound};
ghost use Rattle.lp_form.specs.Data.{IsDataOf, RefusesNumber};
ghost use Rattle.overflows.specs.Faults.{OnLicence};
ghost use Rattle.benson_primal.specs.Logs.{IsOwnLogAnyhow};
ghost use Rattle.solver.specs.Solving.{IsSolutionOf, LicensedInOrder, NamesAllCuts, EndsSolving};
ghost use Rattle.solver.specs.Accepted.{IsAccepted};

use crate::end::{Solution, SolveEnd};
use crate::logs::dual_log_of;
use crate::naming::names_all_cuts;
use crate::own::check_own;
use crate::ways::{Way, end_of};
use cone_dual::{Duality, cone_facts};
use deriv_log::{Entries, Licence};
use exact_field::Field;
use frac128::Frac;
use lp_form::{Data, DataFault};
use overflows::SolveFault;
use src_sink::NoMemory;
use std::alloc::Global;
use tier_frac::Tier;
use vlp_problem::Problem;

/// That a number is held, which the reading of its parts says.
fn is_read(number: &Frac)
    ensures { IsTrue (is_held number.now) }
{
    let _num = number.num();
}

/// Why there are no data of a problem in fractions, which hold each number of it.
fn no_memory(fault: &DataFault) -> NoMemory
    requires { (file : Problem) × RefusesNumber is_held file fault.now }
{
    match fault {
        DataFault::NoMemory => NoMemory,
        DataFault::NotHeld(number) => {
            is_read(number);
            unreachable!()
        }
    }
}

/// The data of a problem in fractions of two sizes, which hold each of its numbers.
pub fn data_of(alloc: Global, problem: &Problem) -> Result<Data<Tier>, NoMemory>
    ensures { IfOk result (IsDataOf (λ q. q) problem.now) }
{
    match Data::<Tier>::of(alloc, problem) {
        Ok(form) => Ok(form),
        Err(fault) => Err(no_memory(&fault)),
    }
}

/// The answer of a log that meets its rules.
fn check_solution(
    alloc: Global,
    problem: &Problem,
    entries: Entries,
) -> Result<Solution, SolveFault>
    requires sound { IsSound problem.now }
    requires own { IsOwnLogAnyhow is_held problem.now entries }
    ensures same { IfOk result (λ solution. solution.entries ≡ entries) }
    ensures ok { IfOk result (IsSolutionOf problem.now) }
    ensures left { IfErr result (λ fault. OnLicence fault (LicensedInOrder is_held problem.now)) }
{
    check_own(alloc, problem, entries)
}

/// The answer that this way finds by a duality vector, with its log.
fn solution_by(
    alloc: Global,
    problem: &Problem,
    form: &Data<Tier>,
    duality: &Duality<Tier>,
    way: Way,
) -> Result<Solution, SolveFault>
    requires stands { IsDataOf (λ q. q) problem.now form.now }
    requires duality { IsDualityOf (λ q. q) is_held problem.now duality.now }
    ensures ok { IfOk result (IsSolutionOf problem.now) }
    ensures left { IfErr result (λ fault. OnLicence fault (LicensedInOrder is_held problem.now)) }
{
    let entries = way.log(alloc, problem, form, duality)?;
    check_solution(alloc, problem, entries)
}

/// The same, in the place of one that stopped at this overflow.
fn solution_in_place_of(
    alloc: Global,
    problem: &Problem,
    form: &Data<Tier>,
    duality: &Duality<Tier>,
    way: Way,
    first: Licence,
) -> Result<Solution, SolveEnd>
    requires stands { IsDataOf (λ q. q) problem.now form.now }
    requires duality { IsDualityOf (λ q. q) is_held problem.now duality.now }
    requires first { LicensedInOrder is_held problem.now first }
    ensures ok { IfOk result (IsSolutionOf problem.now) }
    ensures end { IfErr result (EndsSolving problem.now) }
{
    match solution_by(alloc, problem, form, duality, way) {
        Ok(solution) => Ok(solution),
        Err(second) => Err(end_of(first, second)),
    }
}

/// The answer by the way that is gone first with so many objectives, and where this overflows by
/// the other.
fn solution_of(
    alloc: Global,
    problem: &Problem,
    form: &Data<Tier>,
    duality: &Duality<Tier>,
) -> Result<Solution, SolveEnd>
    requires stands { IsDataOf (λ q. q) problem.now form.now }
    requires duality { IsDualityOf (λ q. q) is_held problem.now duality.now }
    ensures ok { IfOk result (IsSolutionOf problem.now) }
    ensures end { IfErr result (EndsSolving problem.now) }
{
    let way = Way::first(form.p.len());
    match solution_by(alloc, problem, form, duality, way) {
        Ok(solution) => Ok(solution),
        Err(SolveFault::Left(first)) => {
            solution_in_place_of(alloc, problem, form, duality, way.other(), first)
        }
        Err(SolveFault::NoMemory) => Err(SolveEnd::NoMemory),
    }
}

/// The answer of a problem with the log that proves it, or the first fault of its ordering cone.
/// Up to four objectives the image is approximated: this costs two linear programs over the cone,
/// one over the sides for each vertex, extreme direction and cut of the image, the additions of the
/// cuts to a double description, and the check of the log. From five on it is the lower image, as
/// in `solve_dual`. Where a step of the one, or of the check of its log, overflows, the other way is
/// gone from the programs over the sides on; where that overflows too the first overflow is told.
pub fn solve(alloc: Global, problem: &Problem) -> Result<Solution, SolveEnd>
    ensures ok { IfOk result (IsSolutionOf problem.now) }
    ensures accepted { IfOk result (IsAccepted problem.now) }
    ensures end { IfErr result (EndsSolving problem.now) }
{
    let form = data_of(alloc, problem)?;
    let duality = cone_facts(alloc, &form)?;
    solution_of(alloc, problem, &form, &duality)
}

/// The answer by the approximation of the lower image, with a log over the facets.
fn facet_solution(alloc: Global, problem: &Problem, form: &Data<Tier>) -> Result<Solution, SolveEnd>
    requires stands { IsDataOf (λ q. q) problem.now form.now }
    ensures ok { IfOk result (IsSolutionOf problem.now) }
    ensures named { IfOk result (λ solution. NamesAllCuts problem.now solution.entries) }
    ensures end { IfErr result (EndsSolving problem.now) }
{
    let entries = dual_log_of(alloc, problem, form)?;
    let solution = check_solution(alloc, problem, entries)?;
    Ok(solution)
}

/// The answer by the approximation of the image, where its log names each of its cuts as a facet.
fn facet_solution_by_image(
    alloc: Global,
    problem: &Problem,
    form: &Data<Tier>,
) -> Result<Option<Solution>, SolveEnd>
    requires stands { IsDataOf (λ q. q) problem.now form.now }
    ensures ok { IfOk result (λ found. IfSome found (IsSolutionOf problem.now)) }
    ensures named { IfOk result (λ found.
        IfSome found (λ solution. NamesAllCuts problem.now solution.entries)) }
{
    let duality = cone_facts(alloc, form)?;
    let solution = solution_by(alloc, problem, form, &duality, Way::Image)?;
    if names_all_cuts(solution.entries.as_slice()) {
        Ok(Some(solution))
    } else {
        Ok(None)
    }
}

/// The same, in the place of one that stopped at this overflow, which is told where there is none.
fn facet_solution_instead(
    alloc: Global,
    problem: &Problem,
    form: &Data<Tier>,
    first: Licence,
) -> Result<Solution, SolveEnd>
    requires stands { IsDataOf (λ q. q) problem.now form.now }
    requires first { EndsSolving problem.now (SolveEnd.Left first) }
    ensures ok { IfOk result (IsSolutionOf problem.now) }
    ensures named { IfOk result (λ solution. NamesAllCuts problem.now solution.entries) }
    ensures end { IfErr result (EndsSolving problem.now) }
{
    match facet_solution_by_image(alloc, problem, form) {
        Ok(Some(solution)) => Ok(solution),
        Err(SolveEnd::NoMemory) => Err(SolveEnd::NoMemory),
        _ => Err(SolveEnd::Left(first)),
    }
}

/// The answer with a log over the facets alone.
fn facet_solution_of(
    alloc: Global,
    problem: &Problem,
    form: &Data<Tier>,
) -> Result<Solution, SolveEnd>
    requires stands { IsDataOf (λ q. q) problem.now form.now }
    ensures ok { IfOk result (IsSolutionOf problem.now) }
    ensures named { IfOk result (λ solution. NamesAllCuts problem.now solution.entries) }
    ensures end { IfErr result (EndsSolving problem.now) }
{
    match facet_solution(alloc, problem, form) {
        Err(SolveEnd::Left(first)) => facet_solution_instead(alloc, problem, form, first),
        told => told,
    }
}

/// The same with a log over the facets alone, however many objectives: the facets are found first,
/// by an outer approximation of the lower image, and the log is written over them, so that it names
/// each of its cuts. It costs two linear programs over the cone, one over the sides for each facet
/// and each further row of the lower image, the additions of these rows and of the facets to double
/// descriptions, one program for each vertex and extreme direction of the image, and the check of
/// the log. Where one of these overflows the image itself is approximated, and that log serves if
/// it names each of its cuts as a facet; else the first overflow is told.
pub fn solve_dual(alloc: Global, problem: &Problem) -> Result<Solution, SolveEnd>
    ensures ok { IfOk result (IsSolutionOf problem.now) }
    ensures named { IfOk result (λ solution. NamesAllCuts problem.now solution.entries) }
    ensures accepted { IfOk result (IsAccepted problem.now) }
    ensures end { IfErr result (EndsSolving problem.now) }
{
    let form = data_of(alloc, problem)?;
    facet_solution_of(alloc, problem, &form)
}
