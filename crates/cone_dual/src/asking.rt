//! What is asked of linear programs and eliminations over an ordering cone.
ghost use Rattle.std.specs.Prelude.{◌≡◌, map, length, IfOk, IfErr};
ghost use Rattle.exact_simplex.specs.Ends.{IsCertified, IsReadOff};
ghost use Rattle.overflows.specs.Licence.{LicensedByCone};
ghost use Rattle.lin_rows.specs.Answers.{IsIndep};
ghost use Rattle.lin_rows.specs.Read.{numbers};
ghost use Rattle.lp_form.specs.Building.{joined};
ghost use Rattle.lp_form.specs.Data.{IsDataOf, cone_of, duality_of};
ghost use Rattle.lp_form.specs.Programs.{interior_system, pointed_system};
ghost use Rattle.overflows.specs.Faults.{OnLicence};
ghost use Rattle.polyhedra.specs.Vectors.{AreWide};
ghost use Rattle.tableaux.specs.Elimination.{AreIndependent, AreInverse, columns_of};
ghost use Rattle.tableaux.specs.Table.{Table, row_of};
ghost use Rattle.vlp_problem.specs.Values.{cone_vectors};
ghost use Rattle.vlp_problem.specs.declared.problem.Problem.{Problem as File};

use crate::lists::{picked_rows, rows_of};
use exact_field::Field;
use exact_simplex::{LpEnd, solve_lp};
use guessed_rows::{corners_in_two_ways, independent_in_two_ways};
use lin_rows::{Indep, Rows};
use lp_form::{Data, LpName, interior_system, pointed_system};
use overflows::{SolveFault, elimination_fault, program_fault};
use src_sink::{Items, NoMemory};
use std::alloc::Global;

/// How the program of a line ends.
pub fn pointed_end<F: Field>(alloc: Global, form: &Data<F>) -> Result<LpEnd<F>, SolveFault>
    ensures certified { IfOk result
        (IsCertified F.value (pointed_system (length form.now.p) (cone_of F.value form.now.cone))) }
    ensures left { (file : File) → IsDataOf F.value file form.now
        → IfErr result (λ fault. OnLicence fault (LicensedByCone F.holds file)) }
{
    let system = pointed_system(alloc, form.p.len() as u32, &form.cone)?;
    match solve_lp(alloc, &system) {
        Ok(end) => Ok(end),
        Err(fault) => {
            let name: LpName<F> = LpName::Pointed;
            Err(program_fault(alloc, &name, fault, Items::new(alloc)))
        }
    }
}

/// How the program of an interior vector ends.
pub fn interior_end<F: Field>(alloc: Global, form: &Data<F>) -> Result<LpEnd<F>, SolveFault>
    ensures certified { IfOk result (IsCertified F.value (interior_system (length form.now.p)
        (cone_of F.value form.now.cone) (duality_of F.value form.now.duality))) }
    ensures read_off { IfOk result (IsReadOff F.value (interior_system (length form.now.p)
        (cone_of F.value form.now.cone) (duality_of F.value form.now.duality))) }
    ensures left { (file : File) → IsDataOf F.value file form.now
        → IfErr result (λ fault. OnLicence fault (LicensedByCone F.holds file)) }
{
    let system = interior_system(alloc, form.p.len() as u32, &form.cone, &form.duality)?;
    match solve_lp(alloc, &system) {
        Ok(end) => Ok(end),
        Err(fault) => {
            let name: LpName<F> = LpName::Interior;
            Err(program_fault(alloc, &name, fault, Items::new(alloc)))
        }
    }
}

/// As many independent vectors of the cone as it has dimensions, or a vector that is orthogonal to
/// all.
pub fn independent_vectors<F: Field>(
    alloc: Global,
    form: &Data<F>,
    vectors: &[Items<F>],
) -> Result<Indep<F>, SolveFault>
    requires { AreWide (length form.now.p) (numbers F.value vectors.now) }
    ensures ok { IfOk result (IsIndep F.value (length form.now.p) (numbers F.value vectors.now)) }
    ensures left { (file : File) → IsDataOf F.value file form.now
        → cone_vectors file.cone ≡ numbers F.value vectors.now
        → IfErr result (λ fault. OnLicence fault (LicensedByCone F.holds file)) }
{
    let q = form.p.len() as u32;
    let rows = rows_of(alloc, q, vectors)?;
    match independent_in_two_ways(alloc, &rows, q) {
        Ok(found) => Ok(found),
        Err(fault) => Err(elimination_fault(alloc, &rows, fault, Items::new(alloc))),
    }
}

/// The inverse of the vectors with these numbers, column by column.
pub fn inverse_columns<F: Field>(
    alloc: Global,
    form: &Data<F>,
    vectors: &[Items<F>],
    picks: &[u32],
) -> Result<Items<F>, SolveFault>
    requires wide { AreWide (length form.now.p) (numbers F.value vectors.now) }
    requires picks { AreIndependent (length form.now.p) (numbers F.value vectors.now) picks.now }
    ensures ok { IfOk result (λ entries. (inverse : Table) × AreInverse (length form.now.p)
        (map (row_of (numbers F.value vectors.now)) picks.now) inverse
        × (map F.value entries ≡ joined (columns_of (length form.now.p) inverse))) }
    ensures left { (file : File) → IsDataOf F.value file form.now
        → cone_vectors file.cone ≡ numbers F.value vectors.now
        → IfErr result (λ fault. OnLicence fault (LicensedByCone F.holds file)) }
{
    let q = form.p.len() as u32;
    let rows = picked_rows(alloc, q, vectors, picks)?;
    match corners_in_two_ways(alloc, &rows) {
        Ok(columns) => Ok(joined_rows(alloc, &columns)?),
        Err(fault) => Err(elimination_fault(alloc, &rows, fault, Items::new(alloc))),
    }
}

/// The rows, one after the other.
fn joined_rows<F: Field>(alloc: Global, rows: &Rows<F>) -> Result<Items<F>, NoMemory>
    ensures { IfOk result (λ list. map F.value list ≡ joined (numbers F.value rows.now.list)) }
{
    let mut list = Items::new(alloc);
    for k in 0..rows.count() {
        list.append(rows.row(k + 1))?;
    }
    Ok(list)
}
