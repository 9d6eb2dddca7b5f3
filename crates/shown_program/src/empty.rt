//! The test of a guess that there is no solution.
ghost use Rattle.std.specs.Prelude.{◌≡◌, length, map, IsTrue, IfOk, IfSome};
ghost use Rattle.tableaux.specs.Simplex.{InfeasibleAt, IsInfeasible};
ghost use Rattle.tableaux.specs.Table.{System, Table};
ghost use Rattle.vlp_problem.specs.declared.problem.Problem.{Problem as File};
ghost use Rattle.lp_form.specs.Data.{IsDataOf};
ghost use Rattle.lp_form.specs.Names.{HasWidths, named};
ghost use Rattle.lp_form.specs.Programs.{named_system};
ghost use Rattle.program_columns.specs.Program.{IsProgramOf};
ghost use Rattle.shown_program.specs.Guesses.{order_of};
ghost use Rattle.shown_program.specs.Tests.{PassesEmpty};

use crate::farkas::{are_balanced, are_not_below, has_negative_product};
use crate::lists::copy_items;
use crate::order::is_shown;
use crate::range::are_in_range;
use exact_field::Field;
use lp_form::{Data, LpName};
use program_columns::{Columns, columns_of};
use shown_bases::{Contradiction, EmptyGuess};
use src_sink::NoMemory;
use std::alloc::Global;

/// Whether a guess passes all tests.
fn passes<F: Field>(
    alloc: Global,
    program: &Columns<'_, F>,
    guess: &EmptyGuess<F>,
) -> Result<bool, NoMemory>
    ensures { IfOk result (λ yes. IsTrue yes
        → PassesEmpty F.value program.now guess.now.columns (map F.value guess.now.y)
        (order_of guess.now.order)) }
{
    let columns = guess.columns.as_slice();
    if !are_in_range(program, columns) {
        return Ok(false);
    }
    let y = guess.y.as_slice();
    if y.len() != program.right.len() {
        return Ok(false);
    }
    if !are_balanced(program, columns, y) {
        return Ok(false);
    }
    if !are_not_below(program, y) {
        return Ok(false);
    }
    if !has_negative_product(y, program.right.as_slice()) {
        return Ok(false);
    }
    is_shown(alloc, program, columns, &guess.order)
}

/// The multipliers that a guess shows, if it passes all tests.
fn contradiction_at<F: Field>(
    alloc: Global,
    program: &Columns<'_, F>,
    guess: &EmptyGuess<F>,
) -> Result<Option<Contradiction<F>>, NoMemory>
    ensures certified { (s : System) → IsProgramOf F.value s program.now →
        IfOk result (λ o. IfSome o (λ e. IsInfeasible s (map F.value e.farkas))) }
    ensures read_off { (s : System) → IsProgramOf F.value s program.now
        → IfOk result (λ o. IfSome o
        (λ e. (d : Table) × InfeasibleAt s e.basis d (map F.value e.farkas))) }
    ensures same { IfOk result (λ o. IfSome o (λ e. e.basis ≡ guess.now.columns)) }
{
    if !passes(alloc, program, guess)? {
        return Ok(None);
    }
    let farkas = copy_items(alloc, guess.y.as_slice())?;
    let basis = copy_items(alloc, guess.columns.as_slice())?;
    Ok(Some(Contradiction { farkas, basis }))
}

/// The multipliers that a guess shows for a named program, as `optimum_of` tells an optimum: there
/// are none where a test fails, or a number is not held that a test calculates, and none for the
/// programs that are not tested. The cost is that of `optimum_of`.
pub fn contradiction_of<F: Field>(
    alloc: Global,
    form: &Data<F>,
    c: &[F],
    name: &LpName<F>,
    guess: &EmptyGuess<F>,
) -> Result<Option<Contradiction<F>>, NoMemory>
    requires { HasWidths (length form.now.p) c.now name.now }
    ensures certified { (file : File) → IsDataOf F.value file form.now
        → IfOk result (λ o. IfSome o (λ e. IsInfeasible
        (named_system file (map F.value c.now) (named F.value name.now)) (map F.value e.farkas))) }
    ensures read_off { (file : File) → IsDataOf F.value file form.now
        → IfOk result (λ o. IfSome o (λ e. (d : Table)
        × InfeasibleAt (named_system file (map F.value c.now) (named F.value name.now)) e.basis d
        (map F.value e.farkas))) }
    ensures same { IfOk result (λ o. IfSome o (λ e. e.basis ≡ guess.now.columns)) }
{
    match columns_of(alloc, form, c, name)? {
        None => Ok(None),
        Some(program) => contradiction_at(alloc, &program, guess),
    }
}
