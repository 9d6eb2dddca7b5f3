//! Rows by their numbers.

ghost use Rattle.std.specs.Prelude.{◌≡◌, ◌≤◌, ◌∷◌, [], ◌++◌, All, IfOk, OnOk, filter, length, map, not};
ghost use Rattle.log_rules.specs.Live.{contains};
ghost use Rattle.lin_rows.specs.Read.{numbers};
ghost use Rattle.tableaux.specs.Table.{row_of};
ghost use Rattle.cone_dual.specs.Generators.{others};

use exact_field::Field;
use lin_rows::Rows;
use src_sink::{Items, NoMemory};
use std::alloc::Global;

/// Appends a number, unless it is picked.
fn push_other(out: &mut Items<u32>, picks: &[u32], number: u32) -> Result<(), NoMemory>
    ensures { OnOk result
        (out.new ≡ out.old ++ filter (λ k. not (contains picks.now k)) (number ∷ [])) }
{
    if picks.contains(&number) {
        return Ok(());
    }
    out.push(number)
}

/// The numbers from 1 to `count` that are not picked, rising.
pub fn other_numbers(alloc: Global, count: u32, picks: &[u32]) -> Result<Items<u32>, NoMemory>
    ensures { IfOk result (λ out. out ≡ others count picks.now) }
{
    let mut out = Items::new(alloc);
    for k in 0..count {
        push_other(&mut out, picks, k + 1)?;
    }
    Ok(out)
}

/// The rows of these numbers, in the order of the numbers.
pub fn rows_at<F: Field>(alloc: Global, rows: &Rows<F>, picks: &[u32]) -> Result<Rows<F>, NoMemory>
    requires low { All (λ k. 1 ≤ k) picks.now }
    requires high { All (λ k. k ≤ length rows.now.list) picks.now }
    ensures width { IfOk result (λ out. out.width ≡ rows.now.width) }
    ensures rows { IfOk result
        (λ out. numbers F.value out.list ≡ map (row_of (numbers F.value rows.now.list)) picks.now) }
{
    let mut out = Rows::new(alloc, rows.width());
    for number in picks {
        out.push_row(rows.row(*number))?;
    }
    Ok(out)
}
