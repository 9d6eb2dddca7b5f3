//! Artificial columns with the value 0 go out of the basis.

ghost use Rattle.std.specs.Prelude.{◌≡◌, ◌≢◌, ◌+◌, ◌<◌, ◌≤◌, ℕ, IfOk, IfErr};
ghost use Rattle.lin_rows.specs.Lines.{Rises, entries};
ghost use Rattle.exact_simplex.specs.Driving.{IsIdleTo, IsSupport};
ghost use Rattle.exact_simplex.specs.Ends.{IsSystemFault};
ghost use Rattle.exact_simplex.specs.Program.{IsFeasible, IsIdle};
ghost use Rattle.lin_rows.specs.System.{HasLengths, system_of};

use exact_field::{Field, is_zero};
use lin_rows::spots::Spot;
use lin_rows::tableau::Tableau;
use lin_rows::{RowFault, System};

/// A column among the first `count` at which the row is not 0: the first.
fn support<F: Field>(row: &[Spot<F>], count: u32) -> Option<u32>
    ensures { (n : ℕ) → Rises n 0 (entries F.value row.now)
        → IsSupport (entries F.value row.now) count result }
{
    for spot in row {
        if spot.at <= count && !is_zero(spot.value) {
            return Some(spot.at);
        }
    }
    None
}

/// Drives the artificial column of equation `i`, counted from 0, out at the lowest unknown at which
/// its row is not 0, if it has an artificial column and there is such an unknown.
fn drive_row<F: Field>(
    tableau: Tableau<F>,
    system: &System<F>,
    i: u32,
) -> Result<Tableau<F>, RowFault<F>>
    requires lengths { HasLengths system.now }
    requires inside { i < system.now.rows }
    requires feasible { IsFeasible (system_of F.value system.now) tableau }
    requires idle { IsIdleTo (system_of F.value system.now) i tableau }
    ensures feasible { IfOk result (IsFeasible (system_of F.value system.now)) }
    ensures idle { IfOk result (IsIdleTo (system_of F.value system.now) (i + 1)) }
    ensures left { IfErr result (IsSystemFault F.value F.holds (system_of F.value system.now)) }
{
    if tableau.basis()[i as usize] <= system.cols {
        return Ok(tableau);
    }
    match support(&tableau.rows()[i as usize], system.cols) {
        None => Ok(tableau),
        Some(col) => tableau.pivot(i as usize, col),
    }
}

/// Drives all artificial columns out, but for those of equations that are 0 at all unknowns.
pub fn drive_out<F: Field>(
    mut tableau: Tableau<F>,
    system: &System<F>,
) -> Result<Tableau<F>, RowFault<F>>
    requires lengths { HasLengths system.now }
    requires feasible { IsFeasible (system_of F.value system.now) tableau }
    ensures feasible { IfOk result (IsFeasible (system_of F.value system.now)) }
    ensures idle { IfOk result (IsIdle (system_of F.value system.now)) }
    ensures left { IfErr result (IsSystemFault F.value F.holds (system_of F.value system.now)) }
{
    for i in 0..system.rows {
        tableau = drive_row(tableau, system, i)?;
    }
    Ok(tableau)
}
