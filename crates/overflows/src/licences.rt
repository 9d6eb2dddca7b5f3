//! Faults of calls as licences.
ghost use Rattle.std.specs.Prelude.{◌≡◌, ◌⊎◌, ℕ, List, [], map, length, slice_index_or, IfOk, IsTrue};
ghost use Rattle.exact_field.specs.Rational.{ℚ};
ghost use Rattle.exact_simplex.specs.Ends.{IsLpFault};
ghost use Rattle.deriv_log.specs.declared.licence.Place.TheVariants as place_of;
ghost use Rattle.overflows.specs.Dictionaries.{IsAllowed, IsElimTable, system_in};
ghost use Rattle.overflows.specs.Laws.{term_number};
ghost use Rattle.overflows.specs.Products.{AreMultiplied};
ghost use Rattle.overflows.specs.Quotients.{IsDivisor, IsScaled};
ghost use Rattle.overflows.specs.Settings.{Setting};
ghost use Rattle.overflows.specs.Steps.{in_numbers};
ghost use Rattle.lin_rows.specs.Eliminate.{IsElimFault};
ghost use Rattle.lin_rows.specs.Read.{numbers};
ghost use Rattle.lp_form.specs.Names.{named};
ghost use Rattle.overflows.specs.Faults.{IsEliminationLeft, IsLeftAt, IsProgramLeft, IsQuotientAt, IsTermAt, Overflows, placed};
ghost use Rattle.overflows.specs.declared.fault.SolveFault.TheVariants as fault_of;
ghost use Rattle.tableaux.specs.Table.{Table};

use crate::fault::{SolveFault, SumFault};
use crate::numbers::{fractions, operation, row_vectors};
use deriv_log::{Entries, Licence, Place};
use exact_field::{Field, Left, Op};
use exact_simplex::LpFault;
use lin_rows::{RowFault, Rows};
use lp_form::LpName;
use src_sink::{Items, NoMemory};
use std::alloc::Global;
use vlp_problem::Program;

/// The name of a program in fractions.
fn program_name<F: Field>(alloc: Global, name: &LpName<F>) -> Result<Program, NoMemory>
    ensures { IfOk result (λ program. program ≡ named F.value name.now) }
{
    match name {
        LpName::Feasible => Ok(Program::Feasible),
        LpName::Benson { v, t } => {
            let v = fractions(alloc, v.as_slice())?;
            Ok(Program::Benson { v, t: *t })
        }
        LpName::Weight { w } => {
            let w = fractions(alloc, w.as_slice())?;
            Ok(Program::Weight { w })
        }
        LpName::Interior => Ok(Program::Interior),
        LpName::Pointed => Ok(Program::Pointed),
    }
}

/// The overflow of an operation at a place.
fn fault_at<F: Field>(place: Place, left: Left<F>, trail: Entries) -> SolveFault
    ensures told { result
        ≡ fault_of.Left (record { place = place; left = in_numbers F.value left; trail = trail }) }
    ensures held { IsTrue (F.holds (F.value left.a)) }
{
    SolveFault::Left(Licence {
        place,
        left: operation(left),
        trail,
    })
}

/// The fault of the linear program `name`, after the entries of a trail.
pub fn program_fault<F: Field>(
    alloc: Global,
    name: &LpName<F>,
    fault: LpFault<F>,
    trail: Entries,
) -> SolveFault
    ensures told { IsProgramLeft F.value (named F.value name.now) trail fault result }
    ensures licensed { (s : Setting) → IsAllowed s (named F.value name.now)
        → IsLpFault F.value F.holds (system_in s (named F.value name.now)) fault
        → Overflows F.holds s trail result }
{
    match fault {
        LpFault::NoMemory => SolveFault::NoMemory,
        LpFault::Left {
            basis,
            row,
            col,
            step,
            left,
        } => match program_name(alloc, name) {
            Err(_) => SolveFault::NoMemory,
            Ok(program) => {
                let place = Place::Pivot {
                    program,
                    basis,
                    row,
                    col,
                    step,
                };
                fault_at(place, left, trail)
            }
        },
    }
}

/// The column of a row, counted from 0; 0 where the basis has no place for it.
fn column_at(basis: &[u32], row: usize) -> u32
    ensures { result ≡ slice_index_or basis.now row 0 }
{
    if row < basis.len() { basis[row] } else { 0 }
}

/// The basis of an elimination of so many rows, with one place for each. Where nothing is
/// eliminated, in row 0, it stays as it is.
fn basis_of(alloc: Global, basis: Items<u32>, row: u32, rows: u32) -> Result<Items<u32>, NoMemory>
    ensures { IfOk result (λ places. places ≡ placed rows row basis) }
{
    if row == 0 {
        return Ok(basis);
    }
    let mut places = Items::new(alloc);
    for i in 0..rows as usize {
        places.push(column_at(basis.as_slice(), i))?;
    }
    Ok(places)
}

/// The place of a step of an elimination of rows.
fn elim_place<F: Field>(
    alloc: Global,
    rows: &Rows<F>,
    basis: Items<u32>,
    row: u32,
    col: u32,
    step: u8,
) -> Result<Place, NoMemory>
    ensures { IfOk result (λ place. place ≡ place_of.Elim (numbers F.value rows.now.list)
        (placed (length (numbers F.value rows.now.list)) row basis) row col step) }
{
    let basis = basis_of(alloc, basis, row, rows.count())?;
    let rows = row_vectors(alloc, rows)?;
    Ok(Place::Elim {
        rows,
        basis,
        row,
        col,
        step,
    })
}

/// The fault of an elimination of rows, after the entries of a trail. The basis is told with one
/// place for each row.
pub fn elimination_fault<F: Field>(
    alloc: Global,
    rows: &Rows<F>,
    fault: RowFault<F>,
    trail: Entries,
) -> SolveFault
    ensures told { IsEliminationLeft F.value (numbers F.value rows.now.list) trail fault result }
    ensures licensed { (s : Setting) (width columns : ℕ) (t : Table)
        → IsElimTable s (numbers F.value rows.now.list) width t columns
        → IsElimFault F.value F.holds columns t fault → Overflows F.holds s trail result }
{
    match fault {
        RowFault::NoMemory => SolveFault::NoMemory,
        RowFault::Left {
            basis,
            row,
            col,
            step,
            left,
        } => match elim_place(alloc, rows, basis, row, col, step) {
            Err(_) => SolveFault::NoMemory,
            Ok(place) => fault_at(place, left, trail),
        },
    }
}

/// The overflow of a quotient of an entry of a vector, after the entries of a trail.
pub fn scale_fault<F: Field>(
    alloc: Global,
    vector: &[F],
    entry: u32,
    left: Left<F>,
    trail: Entries,
) -> SolveFault
    ensures told { IsLeftAt (place_of.Scale (map F.value vector.now) entry)
        (in_numbers F.value left) trail result }
    ensures licensed { (s : Setting) → IsScaled s (map F.value vector.now)
        → IsDivisor s (map F.value vector.now) (F.value left.b)
        → IsQuotientAt F.value F.holds (map F.value vector.now) entry left
        → Overflows F.holds s trail result }
{
    match fractions(alloc, vector) {
        Err(_) => SolveFault::NoMemory,
        Ok(vector) => fault_at(Place::Scale { vector, entry }, left, trail),
    }
}

/// The number of a step of a sum of products.
fn step_number(op: Op) -> u8
    ensures { result ≡ term_number op }
{
    match op {
        Op::Mul => 2,
        _ => 3,
    }
}

/// The overflow of a sum of products, after the entries of a trail. No memory is taken.
pub fn term_fault<F: Field>(alloc: Global, fault: SumFault<F>, trail: Entries) -> SolveFault
    ensures told { result ≡ fault_of.Left (record {
      place = place_of.Elim [] [] 0 fault.place (term_number fault.left.op);
      left = in_numbers F.value fault.left;
      trail = trail;
    }) }
    ensures licensed { (s : Setting) (xs ys : List ℚ)
        → AreMultiplied s xs ys ⊎ AreMultiplied s ys xs → IsTermAt F.value F.holds xs ys fault
        → Overflows F.holds s trail result }
{
    let place = Place::Elim {
        rows: Items::new(alloc),
        basis: Items::new(alloc),
        row: 0,
        col: fault.place,
        step: step_number(fault.left.op),
    };
    fault_at(place, fault.left, trail)
}
