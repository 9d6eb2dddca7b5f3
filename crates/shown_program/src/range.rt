//! Numbers of columns.
ghost use Rattle.std.specs.Prelude.{◌≤◌, All, IsTrue};
ghost use Rattle.program_columns.specs.Program.{AreInRange};

use exact_field::Field;
use program_columns::Columns;

/// Whether a number is one from 1 to another.
pub(crate) fn is_number(k: usize, most: usize) -> bool
    ensures { IsTrue result → (1 ≤ k) × (k ≤ most) }
{
    k >= 1 && k <= most
}

/// Whether each is from 1 to `most`.
fn are_numbers(columns: &[u32], most: usize) -> bool
    ensures low { IsTrue result → All (λ c. 1 ≤ c) columns.now }
    ensures high { IsTrue result → All (λ c. c ≤ most) columns.now }
{
    for column in columns {
        if !is_number(*column as usize, most) {
            return false;
        }
    }
    true
}

/// Whether there are as many columns as equations, and each is one of the program.
pub(crate) fn are_in_range<F: Field>(program: &Columns<'_, F>, columns: &[u32]) -> bool
    ensures { IsTrue result → AreInRange program.now columns.now }
{
    if columns.len() != program.right.len() {
        return false;
    }
    are_numbers(columns, program.cost.len() + program.right.len())
}
