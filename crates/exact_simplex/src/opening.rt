//! The table of a linear program, and its first full basis.

ghost use Rattle.std.specs.Prelude.{◌≡◌, ◌+◌, ◌-◌, ◌<◌, ◌≤◌, ℕ, length, IfOk, OnOk, IfErr};
ghost use Rattle.exact_field.specs.Rational.{one_ℚ, neg_ℚ};
ghost use Rattle.lin_rows.specs.Lines.{entries};
ghost use Rattle.lin_rows.specs.Read.{IsLineOf};
ghost use Rattle.tableaux.specs.Table.{artificial_sign, first_cost, right_column, row_of, second_cost, table_of};
ghost use Rattle.exact_simplex.specs.Ends.{IsSystemFault};
ghost use Rattle.exact_simplex.specs.Program.{IsPrimal, IsUnopened};
ghost use Rattle.lin_rows.specs.System.{HasLengths, coefficients_of, system_of};

use exact_field::{Field, is_negative};
use lin_rows::build::{line_of, push_kept};
use lin_rows::spots::Spot;
use lin_rows::tableau::Tableau;
use lin_rows::{RowFault, System};
use src_sink::{MOST_ITEMS, NoMemory};
use std::alloc::Global;

/// What an artificial column holds in its equation: 1, or -1 where the right side is negative.
fn artificial<F: Field>(right: F) -> F
    ensures { F.value result ≡ artificial_sign (F.value right) }
{
    if is_negative(right) {
        F::one().neg()
    } else {
        F::one()
    }
}

/// The coefficients of equation `i`, counted from 0.
fn coefficients<F: Field>(system: &System<F>, i: u32) -> &[F]
    requires lengths { HasLengths system.now }
    requires inside { i < system.now.rows }
    ensures { result.now ≡ coefficients_of system.now (i + 1) }
{
    let start = i as usize * system.cols as usize;
    &system.a.as_slice()[start..start + system.cols as usize]
}

/// The row of equation `i`, counted from 0.
fn equation_line<F: Field>(
    alloc: Global,
    system: &System<F>,
    i: u32,
) -> Result<Vec<Spot<F>>, NoMemory>
    requires lengths { HasLengths system.now }
    requires inside { i < system.now.rows }
    requires fits { system.now.cols + system.now.rows < 4294967293 }
    ensures { IfOk result (λ line. IsLineOf (right_column (system_of F.value system.now))
        (row_of (table_of (system_of F.value system.now)) (i + 1)) (entries F.value line.items)) }
{
    let right = system.b.as_slice()[i as usize];
    let mut line = line_of(alloc, coefficients(system, i))?;
    let value = artificial(right);
    let at = system.cols + i + 1;
    line.push(Spot { at, value })?;
    push_kept(&mut line, system.cols + system.rows + 1, right)?;
    Ok(line)
}

/// The cost row of phase one: 1 at each artificial column.
fn first_cost_line<F: Field>(alloc: Global, system: &System<F>) -> Result<Vec<Spot<F>>, NoMemory>
    requires lengths { HasLengths system.now }
    requires fits { system.now.cols + system.now.rows < 4294967293 }
    ensures { IfOk result (λ line. IsLineOf (right_column (system_of F.value system.now)) (row_of
        (table_of (system_of F.value system.now)) (first_cost (system_of F.value system.now)))
        (entries F.value line.items)) }
{
    let mut line = Vec::new(alloc);
    for i in 0..system.rows {
        push_kept(&mut line, system.cols + i + 1, F::one())?;
    }
    Ok(line)
}

/// The cost row of phase two: the negated cost.
pub fn second_cost_line<F: Field>(
    alloc: Global,
    system: &System<F>,
) -> Result<Vec<Spot<F>>, NoMemory>
    requires { HasLengths system.now }
    ensures { IfOk result (λ line. IsLineOf (right_column (system_of F.value system.now)) (row_of
        (table_of (system_of F.value system.now)) (second_cost (system_of F.value system.now)))
        (entries F.value line.items)) }
{
    let cost = system.cost.as_slice();
    let mut line = Vec::new(alloc);
    for i in 0..cost.len() {
        push_kept(&mut line, i as u32 + 1, cost[i].neg())?;
    }
    Ok(line)
}

/// The table of the program, with one artificial column for each equation and a cost row for each
/// phase.
pub fn build_table<F: Field>(alloc: Global, system: &System<F>) -> Result<Tableau<F>, NoMemory>
    requires { HasLengths system.now }
    ensures { IfOk result (IsUnopened (system_of F.value system.now)) }
{
    if system.cols as usize + system.rows as usize >= MOST_ITEMS - 1 {
        return Err(NoMemory);
    }
    let mut rows = Vec::new(alloc);
    let mut basis = Vec::new(alloc);
    for i in 0..system.rows {
        rows.push(equation_line(alloc, system, i)?)?;
        basis.push(0)?;
    }
    rows.push(first_cost_line(alloc, system)?)?;
    basis.push(0)?;
    rows.push(second_cost_line(alloc, system)?)?;
    basis.push(0)?;
    Ok(Tableau::new(alloc, system.cols + system.rows + 1, rows, basis))
}

/// The artificial column of equation `i`, counted from 0.
pub fn artificial_column<F: Field>(tableau: &Tableau<F>, system: &System<F>, i: u32) -> u32
    requires inside { i < system.now.rows }
    requires width { tableau.now.width ≡ system.now.cols + system.now.rows + 1 }
    ensures { result ≡ system.now.cols + i + 1 }
{
    tableau.width() - system.rows + i
}

/// Gives each equation its artificial column, by a pivot each. No right side is negative
/// afterwards.
pub fn open<F: Field>(
    mut tableau: Tableau<F>,
    system: &System<F>,
) -> Result<Tableau<F>, RowFault<F>>
    requires lengths { HasLengths system.now }
    requires unopened { IsUnopened (system_of F.value system.now) tableau }
    ensures ok { IfOk result (IsPrimal (system_of F.value system.now)) }
    ensures left { IfErr result (IsSystemFault F.value F.holds (system_of F.value system.now)) }
{
    for i in 0..system.rows {
        let col = artificial_column(&tableau, system, i);
        tableau = tableau.pivot(i as usize, col)?;
    }
    Ok(tableau)
}
