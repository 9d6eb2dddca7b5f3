//! Licences from what double descriptions tell of their overflows, for any rows that may be
//! eliminated or added.
ghost use Rattle.std.specs.Prelude.{◌≡◌, [], ◌∷◌, ◌++◌, IfOk, map, length};
ghost use Rattle.deriv_log.specs.declared.licence.Place.TheVariants as place_of;
ghost use Rattle.overflows.specs.Steps.{in_numbers};
ghost use Rattle.overflows.specs.Faults.{IsLeftAt, Overflows};
ghost use Rattle.double_descr.specs.Adding.{IsAddFault, add_blocks};
ghost use Rattle.double_descr.specs.Starting.{IsStartFault};
ghost use Rattle.overflows.specs.Dictionaries.{AreStartRows};
ghost use Rattle.overflows.specs.Generators.{IsAddition};
ghost use Rattle.overflows.specs.Settings.{Setting};
ghost use Rattle.lin_rows.specs.Read.{numbers};
ghost use Rattle.overflows.specs.Told.{IsAdditionLeft, IsStartLeft};

use crate::fault::SolveFault;
use crate::licences::elimination_fault;
use crate::numbers::{fractions, operation};
use deriv_log::{Family, Licence, Place};
use double_descr::{Dd, DdFault};
use exact_field::{Field, Left};
use frac128::Vectors;
use lin_rows::Rows;
use src_sink::{Items, NoMemory};
use std::alloc::Global;

/// The rows of a double description and one after them, in fractions.
fn vectors_with<F: Field>(alloc: Global, dd: &Dd<F>, last: &[F]) -> Result<Vectors, NoMemory>
    ensures { IfOk result (λ vectors. vectors ≡ dd.now.rows ++ map F.value last.now ∷ []) }
{
    let mut out = Items::new(alloc);
    for k in 0..dd.row_count() {
        out.push(fractions(alloc, dd.row(k))?)?;
    }
    out.push(fractions(alloc, last)?)?;
    Ok(out)
}

/// The overflow of a step of the addition of a row of such a family to a double description, with
/// no trail.
fn pair_fault<F: Field>(
    alloc: Global,
    family: Family,
    dd: &Dd<F>,
    row: &[F],
    first: u32,
    second: u32,
    step: u64,
    left: Left<F>,
) -> SolveFault
    ensures { IsLeftAt
        (place_of.Pair family (dd.now.rows ++ map F.value row.now ∷ []) first second step)
        (in_numbers F.value left) [] result }
{
    match vectors_with(alloc, dd, row) {
        Err(_) => SolveFault::NoMemory,
        Ok(rows) => SolveFault::Left(Licence {
            place: Place::Pair {
                family,
                rows,
                first,
                second,
                step,
            },
            left: operation(left),
            trail: Items::new(alloc),
        }),
    }
}

/// What is told where a start with these rows is given up, with no trail.
pub fn start_fault<F: Field>(alloc: Global, rows: &Rows<F>, fault: DdFault<F>) -> SolveFault
    requires square { length rows.now.list ≡ rows.now.width }
    requires fault { IsStartFault F.value F.holds rows.now.width
        (numbers F.value rows.now.list) fault }
    ensures told { IsStartLeft F.value (numbers F.value rows.now.list) fault result }
    ensures licensed { (s : Setting) → AreStartRows s (numbers F.value rows.now.list) rows.now.width
        → Overflows F.holds s [] result }
{
    match fault {
        DdFault::NoMemory => SolveFault::NoMemory,
        DdFault::Elim(fault) => elimination_fault(alloc, rows, fault, Items::new(alloc)),
        DdFault::Left { .. } => unreachable!(),
    }
}

/// What is told where the addition of a row of such a family is given up, with no trail.
pub fn add_fault<F: Field>(
    alloc: Global,
    family: Family,
    dd: &Dd<F>,
    row: &[F],
    fault: DdFault<F>,
) -> SolveFault
    requires fault { IsAddFault F.value F.holds
        (add_blocks dd.now.rows dd.now.list.live (map F.value row.now)) fault }
    ensures told { IsAdditionLeft F.value family dd.now.rows (map F.value row.now) fault result }
    ensures licensed { (s : Setting)
        → IsAddition s dd.now.rows (map F.value row.now) dd.now.list family
        → Overflows F.holds s [] result }
{
    match fault {
        DdFault::NoMemory => SolveFault::NoMemory,
        DdFault::Elim(_) => unreachable!(),
        DdFault::Left {
            first,
            second,
            step,
            left,
        } => pair_fault(alloc, family, dd, row, first, second, step, left),
    }
}
