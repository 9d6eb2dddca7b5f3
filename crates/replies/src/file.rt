//! The sample file of a number, and its text.
ghost use Rattle.std.specs.Prelude.{◌≡◌, ℕ, ◌++◌, replicate, OnOk, IfOk};
ghost use Rattle.exact_field.specs.Rational.{zero_ℚ, one_ℚ};
ghost use Rattle.vlp_printer.specs.Printing.{problem_text};
ghost use Rattle.vlp_problem.specs.declared.problem.Problem.{Problem};
ghost use Rattle.vlp_problem.specs.declared.problem.Bound.TheVariants.{Double};
ghost use Rattle.replies.specs.Draws.{state_after};
ghost use Rattle.replies.specs.Drawn.{drawn, drawn_row, HasDraws};
ghost use Rattle.replies.specs.Sample.{sample_cols, IsSample, IsSampleText};

use crate::draws::{draw, next_state};
use exact_field::Field;
use frac128::Frac;
use src_sink::{Bytes, Items, NoMemory};
use std::alloc::Global;
use vlp_printer::{PrintFault, print_vlp};
use vlp_problem::{Bound, Cell, Cone, Dir, Problem};

/// How many columns the sample file of a number has.
fn columns(number: u32) -> u32
    ensures { result ≡ sample_cols number }
{
    8 + number % 17
}

/// Appends the entry of a place, where it is not 0.
fn put_entry(row: u32, col: u32, value: Frac, into: &mut Items<Cell>) -> Result<(), NoMemory>
    ensures { OnOk result (into.new ≡ into.old ++ drawn row col value) }
{
    if value.num() == 0 {
        return Ok(());
    }
    into.push(Cell { row, col, value })
}

/// Appends the entries of an objective, from the draws after a state, and gives the last state.
fn put_objective(row: u32, cols: u32, state: u32, into: &mut Items<Cell>) -> Result<u32, NoMemory>
    ensures state { IfOk result (λ s. s ≡ state_after state cols) }
    ensures cells { OnOk result (into.new ≡ into.old ++ drawn_row state row cols) }
{
    let mut last = state;
    for before in 0..cols {
        last = next_state(last);
        put_entry(row, before + 1, draw(last), into)?;
    }
    Ok(last)
}

/// The entries of the objectives.
fn objectives(alloc: Global, number: u32, cols: u32) -> Result<Items<Cell>, NoMemory>
    ensures { IfOk result (HasDraws number cols) }
{
    let mut cells = Items::new(alloc);
    let second = put_objective(1, cols, number, &mut cells)?;
    let third = put_objective(2, cols, second, &mut cells)?;
    put_objective(3, cols, third, &mut cells)?;
    Ok(cells)
}

/// The bounds 0 and 1 for each column.
fn unit_bounds(alloc: Global, cols: u32) -> Result<Items<Bound>, NoMemory>
    ensures { IfOk result (λ bounds. bounds ≡ replicate cols (Double zero_ℚ one_ℚ)) }
{
    let mut bounds = Items::new(alloc);
    for _ in 0..cols {
        bounds.push(Bound::Double(Frac::from(0), Frac::from(1)))?;
    }
    Ok(bounds)
}

/// The sample file of a number: 3 objectives of 8 to 24 columns, whose entries are drawn from -9 to
/// 9.
pub fn sample_file(alloc: Global, number: u32) -> Result<Problem, NoMemory>
    ensures { IfOk result (IsSample number) }
{
    let cols = columns(number);
    let o = objectives(alloc, number, cols)?;
    let col_bounds = unit_bounds(alloc, cols)?;
    Ok(Problem {
        dir: Dir::Min,
        rows: 0,
        cols,
        objs: 3,
        a: Items::new(alloc),
        o,
        row_bounds: Items::new(alloc),
        col_bounds,
        cone: Cone::Orthant,
        duality: None,
    })
}

/// The text of a sample file.
fn print_file(alloc: Global, file: &Problem) -> Result<Bytes, NoMemory>
    requires { (number : ℕ) × IsSample number file.now }
    ensures { IfOk result (λ text. text ≡ problem_text file.now) }
{
    match print_vlp(alloc, file) {
        Ok(text) => Ok(text),
        Err(PrintFault::NotDecimal(_)) => unreachable!(),
        Err(PrintFault::NoMemory) => Err(NoMemory),
    }
}

/// The text of the sample file of a number, as a vlp file.
pub fn sample_text(alloc: Global, number: u32) -> Result<Bytes, NoMemory>
    ensures { IfOk result (IsSampleText number) }
{
    let file = sample_file(alloc, number)?;
    print_file(alloc, &file)
}
