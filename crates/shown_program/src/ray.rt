//! The test of a guess of solutions of any cost.
ghost use Rattle.std.specs.Prelude.{◌≡◌, ℕ, length, map, IsTrue, IfOk, IfSome};
ghost use Rattle.tableaux.specs.Simplex.{IsUnbounded, UnboundedAt};
ghost use Rattle.tableaux.specs.Table.{System, Table};
ghost use Rattle.vlp_problem.specs.declared.problem.Problem.{Problem as File};
ghost use Rattle.lp_form.specs.Data.{IsDataOf};
ghost use Rattle.lp_form.specs.Names.{HasWidths, named};
ghost use Rattle.lp_form.specs.Programs.{named_system};
ghost use Rattle.program_columns.specs.Program.{IsProgramOf};
ghost use Rattle.shown_program.specs.Guesses.{order_of};
ghost use Rattle.shown_program.specs.Tests.{PassesAlong};

use crate::direction::is_along;
use crate::lists::{copy_items, with_first};
use crate::order::is_shown;
use crate::range::are_in_range;
use crate::solution::{are_allowed, spread, sum_to};
use exact_field::Field;
use lp_form::{Data, LpName};
use program_columns::{Columns, columns_of};
use shown_bases::{Ray, RayGuess};
use src_sink::NoMemory;
use std::alloc::Global;

/// Whether a guess passes all tests.
fn passes<F: Field>(
    alloc: Global,
    program: &Columns<'_, F>,
    guess: &RayGuess<F>,
) -> Result<bool, NoMemory>
    ensures { IfOk result (λ yes. IsTrue yes
        → PassesAlong F.value program.now guess.now.columns (map F.value guess.now.x)
        guess.now.col (map F.value guess.now.changes) (order_of guess.now.order)) }
{
    let columns = guess.columns.as_slice();
    if !are_in_range(program, columns) {
        return Ok(false);
    }
    let x = guess.x.as_slice();
    if x.len() != columns.len() {
        return Ok(false);
    }
    let changes = guess.changes.as_slice();
    if changes.len() != columns.len() {
        return Ok(false);
    }
    if !are_allowed(columns, x, program.cost.len()) {
        return Ok(false);
    }
    if !sum_to(alloc, program, columns, x, program.right.as_slice())? {
        return Ok(false);
    }
    if !is_along(alloc, program, columns, guess.col, changes)? {
        return Ok(false);
    }
    is_shown(alloc, program, columns, &guess.order)
}

/// The solution and the ray that a guess shows, if it passes all tests.
fn ray_at<F: Field>(
    alloc: Global,
    program: &Columns<'_, F>,
    guess: &RayGuess<F>,
) -> Result<Option<Ray<F>>, NoMemory>
    ensures certified { (s : System) → IsProgramOf F.value s program.now →
        IfOk result (λ o. IfSome o (λ e. IsUnbounded s (map F.value e.x) (map F.value e.ray))) }
    ensures read_off { (s : System) → IsProgramOf F.value s program.now
        → IfOk result (λ o. IfSome o (λ e. (d : Table) × (col : ℕ)
        × UnboundedAt s e.basis d col (map F.value e.x) (map F.value e.ray))) }
    ensures same { IfOk result (λ o. IfSome o (λ e. e.basis ≡ guess.now.columns)) }
{
    if !passes(alloc, program, guess)? {
        return Ok(None);
    }
    let columns = guess.columns.as_slice();
    let unknowns = program.cost.len() as u32;
    let x = spread(alloc, columns, guess.x.as_slice(), unknowns)?;
    let raised = with_first(alloc, guess.col, columns)?;
    let changes = with_first(alloc, F::one(), guess.changes.as_slice())?;
    let ray = spread(alloc, raised.as_slice(), changes.as_slice(), unknowns)?;
    let basis = copy_items(alloc, columns)?;
    Ok(Some(Ray { x, ray, basis }))
}

/// The solution and the ray that a guess shows for a named program, as `optimum_of` tells an
/// optimum: there is none where a test fails, or a number is not held that a test calculates, and
/// none for the programs that are not tested. The cost is that of `optimum_of`.
pub fn ray_of<F: Field>(
    alloc: Global,
    form: &Data<F>,
    c: &[F],
    name: &LpName<F>,
    guess: &RayGuess<F>,
) -> Result<Option<Ray<F>>, NoMemory>
    requires { HasWidths (length form.now.p) c.now name.now }
    ensures certified { (file : File) → IsDataOf F.value file form.now
        → IfOk result (λ o. IfSome o (λ e. IsUnbounded
        (named_system file (map F.value c.now) (named F.value name.now)) (map F.value e.x)
        (map F.value e.ray))) }
    ensures read_off { (file : File) → IsDataOf F.value file form.now
        → IfOk result (λ o. IfSome o (λ e. (d : Table) × (col : ℕ)
        × UnboundedAt (named_system file (map F.value c.now) (named F.value name.now)) e.basis d
        col (map F.value e.x) (map F.value e.ray))) }
    ensures same { IfOk result (λ o. IfSome o (λ e. e.basis ≡ guess.now.columns)) }
{
    match columns_of(alloc, form, c, name)? {
        None => Ok(None),
        Some(program) => ray_at(alloc, &program, guess),
    }
}
