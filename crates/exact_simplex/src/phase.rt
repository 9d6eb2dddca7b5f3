//! One phase of the simplex method.

ghost use Rattle.std.specs.Prelude.{◌≡◌, ◌+◌, ◌<◌, ◌≤◌, ◌∷◌, length, take, IfOk, IfErr};
ghost use Rattle.tableaux.specs.Table.{equation_count, unknown_count};
ghost use Rattle.exact_simplex.specs.Ends.{IsSystemFault};
ghost use Rattle.exact_simplex.specs.Phase.{IsMoved, IsPhaseEnd, IsPhaseFault, IsStart, IsTurn};
ghost use Rattle.exact_simplex.specs.Program.{IsIdle, IsPrimal};
ghost use Rattle.lin_rows.specs.System.{HasLengths, system_of};

use crate::measure::magnitudes;
use crate::ratio::{find_entering, find_leaving};
use exact_field::Field;
use lin_rows::tableau::Tableau;
use lin_rows::{RowFault, System};
use src_sink::NoMemory;

/// Pivots at columns that better the row `cost`, counted from 0, until there is none, or one
/// without limit, which it answers. The first `equations` rows are the equations, the first
/// `unknowns` columns may enter, and `columns` are those that are compared when a row is chosen. A
/// turn costs a pivot, and a quotient for each row and compared column at the worst.
pub fn run_phase<F: Field>(
    mut tableau: Tableau<F>,
    equations: usize,
    cost: usize,
    unknowns: u32,
    columns: &[u32],
) -> Result<(Tableau<F>, Option<u32>), RowFault<F>>
    requires start { IsStart equations columns.now tableau }
    requires turn { IsTurn equations columns.now tableau tableau }
    requires cost { equations ≤ cost }
    requires inside { cost < length tableau.table }
    requires unknowns { unknowns ≤ tableau.width }
    ensures turn { IfOk result (λ done. IsTurn equations columns.now tableau done.0) }
    ensures moved { IfOk result (λ done. IsMoved equations unknowns tableau done.0) }
    ensures end { IfOk result (λ done. IsPhaseEnd equations cost unknowns done.0.table done.1) }
    ensures still { IsPhaseEnd equations cost unknowns tableau.table None
        → IfOk result (λ done. (done.1 ≡ None) × (done.0 ≡ tableau)) }
    ensures left { IfErr result (IsPhaseFault F.value F.holds equations unknowns tableau) }
{
    let mut greatest = magnitudes(tableau.alloc(), unknowns)?;
    while let Some(col) = find_entering(
        &tableau.rows()[cost],
        unknowns,
        tableau.rows(),
        equations,
        &mut greatest,
    ) {
        match find_leaving(tableau.rows(), equations, col, columns) {
            Err(test) => return Err(tableau.give_up(test.row, col, 1, test.left)),
            Ok(None) => return Ok((tableau, Some(col))),
            Ok(Some(row)) => tableau = tableau.pivot(row, col)?,
        }
    }
    Ok((tableau, None))
}

/// The columns by which a phase compares rows: that of the right sides, and those with which it
/// begins.
fn list_compared<F: Field>(tableau: &Tableau<F>, equations: u32) -> Result<Vec<u32>, NoMemory>
    requires { equations ≤ length tableau.now.basis }
    ensures { IfOk result
        (λ columns. columns.items ≡ tableau.now.width ∷ take equations tableau.now.basis) }
{
    let mut columns = Vec::new(tableau.alloc());
    columns.push(tableau.width())?;
    columns.extend_from_slice(&tableau.basis()[..equations as usize])?;
    Ok(columns)
}

/// Runs a phase whose cost stands in the row `cost`, counted from 0: the unknown that betters it
/// without limit, if there is one, and none if no unknown betters it any more.
pub fn optimize<F: Field>(
    tableau: Tableau<F>,
    system: &System<F>,
    cost: usize,
) -> Result<(Tableau<F>, Option<u32>), RowFault<F>>
    requires lengths { HasLengths system.now }
    requires primal { IsPrimal (system_of F.value system.now) tableau }
    requires low { system.now.rows ≤ cost }
    requires high { cost ≤ system.now.rows + 1 }
    ensures primal { IfOk result (λ done. IsPrimal (system_of F.value system.now) done.0) }
    ensures idle { IsIdle (system_of F.value system.now) tableau
        → IfOk result (λ done. IsIdle (system_of F.value system.now) done.0) }
    ensures still { IsPhaseEnd (equation_count (system_of F.value system.now)) cost
        (unknown_count (system_of F.value system.now)) tableau.table None
        → IfOk result (λ done. (done.1 ≡ None) × (done.0 ≡ tableau)) }
    ensures end { IfOk result (λ done. IsPhaseEnd (equation_count (system_of F.value system.now))
        cost (unknown_count (system_of F.value system.now)) done.0.table done.1) }
    ensures left { IfErr result (IsSystemFault F.value F.holds (system_of F.value system.now)) }
{
    let columns = list_compared(&tableau, system.rows)?;
    run_phase(tableau, system.rows as usize, cost, system.cols, &columns)
}
