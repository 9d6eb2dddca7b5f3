//! The test of a guess of an optimum.
ghost use Rattle.std.specs.Prelude.{◌≡◌, length, map, IsTrue, IfOk, IfSome};
ghost use Rattle.tableaux.specs.Simplex.{IsOptimal, OptimalAt};
ghost use Rattle.tableaux.specs.Table.{System, Table};
ghost use Rattle.vlp_problem.specs.declared.problem.Problem.{Problem as File};
ghost use Rattle.lp_form.specs.Data.{IsDataOf};
ghost use Rattle.lp_form.specs.Names.{HasWidths, named};
ghost use Rattle.lp_form.specs.Programs.{named_system};
ghost use Rattle.program_columns.specs.Program.{IsProgramOf};
ghost use Rattle.shown_program.specs.Guesses.{order_of};
ghost use Rattle.shown_program.specs.Tests.{Passes};

use crate::lists::copy_items;
use crate::order::is_shown;
use crate::prices::are_prices;
use crate::range::are_in_range;
use crate::solution::{are_allowed, spread, sum_to};
use exact_field::Field;
use lp_form::{Data, LpName};
use program_columns::{Columns, columns_of};
use shown_bases::{Guess, Optimum};
use src_sink::NoMemory;
use std::alloc::Global;

/// Whether a guess passes all tests.
fn passes<F: Field>(
    alloc: Global,
    program: &Columns<'_, F>,
    guess: &Guess<F>,
) -> Result<bool, NoMemory>
    ensures { IfOk result (λ yes. IsTrue yes
        → Passes F.value program.now guess.now.columns (map F.value guess.now.x)
        (map F.value guess.now.y) (order_of guess.now.order)) }
{
    let columns = guess.columns.as_slice();
    if !are_in_range(program, columns) {
        return Ok(false);
    }
    let x = guess.x.as_slice();
    if x.len() != columns.len() {
        return Ok(false);
    }
    let y = guess.y.as_slice();
    if y.len() != program.right.len() {
        return Ok(false);
    }
    if !are_allowed(columns, x, program.cost.len()) {
        return Ok(false);
    }
    if !sum_to(alloc, program, columns, x, program.right.as_slice())? {
        return Ok(false);
    }
    if !are_prices(alloc, program, columns, y)? {
        return Ok(false);
    }
    is_shown(alloc, program, columns, &guess.order)
}

/// The optimum that a guess shows, if it passes all tests.
fn optimum_at<F: Field>(
    alloc: Global,
    program: &Columns<'_, F>,
    guess: &Guess<F>,
) -> Result<Option<Optimum<F>>, NoMemory>
    ensures certified { (s : System) → IsProgramOf F.value s program.now →
        IfOk result (λ o. IfSome o (λ e. IsOptimal s (map F.value e.x) (map F.value e.dual))) }
    ensures read_off { (s : System) → IsProgramOf F.value s program.now
        → IfOk result (λ o. IfSome o
        (λ e. (d : Table) × OptimalAt s e.basis d (map F.value e.x) (map F.value e.dual))) }
    ensures same { IfOk result (λ o. IfSome o (λ e. e.basis ≡ guess.now.columns)) }
{
    if !passes(alloc, program, guess)? {
        return Ok(None);
    }
    let columns = guess.columns.as_slice();
    let x = spread(
        alloc,
        columns,
        guess.x.as_slice(),
        program.cost.len() as u32,
    )?;
    let dual = copy_items(alloc, guess.y.as_slice())?;
    let basis = copy_items(alloc, columns)?;
    Ok(Some(Optimum { x, dual, basis }))
}

/// The optimum that a guess shows for a named program, whose columns are not written into one
/// table. There is none where a test fails, or a number is not held that a test calculates; and
/// none for the programs of the cone, and for that of a weight where the cone is in dual form,
/// which are not tested. `c` is the duality vector, which only `Benson` uses.
///
/// The cost is linear in the entries of the columns that are not 0, but for the columns that leave
/// equations together: these are eliminated.
pub fn optimum_of<F: Field>(
    alloc: Global,
    form: &Data<F>,
    c: &[F],
    name: &LpName<F>,
    guess: &Guess<F>,
) -> Result<Option<Optimum<F>>, NoMemory>
    requires { HasWidths (length form.now.p) c.now name.now }
    ensures certified { (file : File) → IsDataOf F.value file form.now
        → IfOk result (λ o. IfSome o (λ e. IsOptimal
        (named_system file (map F.value c.now) (named F.value name.now)) (map F.value e.x)
        (map F.value e.dual))) }
    ensures read_off { (file : File) → IsDataOf F.value file form.now
        → IfOk result (λ o. IfSome o (λ e. (d : Table)
        × OptimalAt (named_system file (map F.value c.now) (named F.value name.now)) e.basis d
        (map F.value e.x) (map F.value e.dual))) }
    ensures same { IfOk result (λ o. IfSome o (λ e. e.basis ≡ guess.now.columns)) }
{
    match columns_of(alloc, form, c, name)? {
        None => Ok(None),
        Some(program) => optimum_at(alloc, &program, guess),
    }
}
