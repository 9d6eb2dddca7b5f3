//! The double description of a pointed cone that is given by rows.

ghost use Rattle.std.specs.Prelude.{◌≡◌, ◌++◌, ◌∷◌, [], IfErr, IfOk, OnOk, length, map};
ghost use Rattle.polyhedra.specs.Cone.{HasFullRank};
ghost use Rattle.polyhedra.specs.LiveList.{step};
ghost use Rattle.tableaux.specs.Elimination.{AreIndependent};
ghost use Rattle.deriv_log.specs.declared.licence.Family.{Family as AnyFamily};
ghost use Rattle.lin_rows.specs.Read.{numbers};
ghost use Rattle.overflows.specs.Dictionaries.{AreElimRows, AreStartRows};
ghost use Rattle.overflows.specs.Generators.{IsAddition, IsMadeOver};
ghost use Rattle.overflows.specs.Settings.{Setting};
ghost use Rattle.overflows.specs.Faults.{OnLicence, Overflows};
ghost use Rattle.cone_dual.specs.Generators.{IsAlone, IsDescriptionOf, IsOver, MayDescribe};

use crate::picked::{other_numbers, rows_at};
use deriv_log::Family;
use double_descr::Dd;
use exact_field::Field;
use guessed_rows::independent_in_two_ways;
use lin_rows::{Indep, Rows};
use overflows::{SolveFault, add_fault, elimination_fault, start_fault};
use src_sink::Items;
use std::alloc::Global;

/// The numbers of as many independent rows as they have entries.
fn basis_of<F: Field>(alloc: Global, rows: &Rows<F>) -> Result<Items<u32>, SolveFault>
    requires { HasFullRank rows.now.width (numbers F.value rows.now.list) }
    ensures ok { IfOk result
        (λ picks. AreIndependent rows.now.width (numbers F.value rows.now.list) picks) }
    ensures place { (family : AnyFamily) → IfErr result (λ fault. OnLicence fault
        (λ licence. IsOver family (numbers F.value rows.now.list) licence.place)) }
    ensures told { IfErr result (λ fault. OnLicence fault (IsAlone F.holds)) }
    ensures left { (s : Setting) → AreElimRows s (numbers F.value rows.now.list) rows.now.width
        → IfErr result (Overflows F.holds s []) }
{
    match independent_in_two_ways(alloc, rows, rows.width()) {
        Ok(Indep::Basis(picks)) => Ok(picks),
        Ok(Indep::Orthogonal(_)) => unreachable!(),
        Err(fault) => Err(elimination_fault(alloc, rows, fault, Items::new(alloc))),
    }
}

/// The double description of as many independent rows as they have entries.
fn start_rows<F: Field>(alloc: Global, rows: &Rows<F>) -> Result<Dd<F>, SolveFault>
    requires square { length rows.now.list ≡ rows.now.width }
    requires rank { HasFullRank rows.now.width (numbers F.value rows.now.list) }
    ensures width { IfOk result (λ dd. dd.width ≡ rows.now.width) }
    ensures rows { IfOk result (λ dd. dd.rows ≡ numbers F.value rows.now.list) }
    ensures made { IfOk result (λ dd. IsMadeOver rows.now.width dd.rows dd.list) }
    ensures place { (family : AnyFamily) → IfErr result (λ fault. OnLicence fault
        (λ licence. IsOver family (numbers F.value rows.now.list) licence.place)) }
    ensures told { IfErr result (λ fault. OnLicence fault (IsAlone F.holds)) }
    ensures left { (s : Setting) → AreStartRows s (numbers F.value rows.now.list) rows.now.width
        → IfErr result (Overflows F.holds s []) }
{
    match Dd::start(alloc, rows) {
        Ok(dd) => Ok(dd),
        Err(fault) => Err(start_fault(alloc, rows, fault)),
    }
}

/// Adds a row of a family. After an overflow the licence has no trail.
pub fn add_row<F: Field>(
    alloc: Global,
    family: Family,
    dd: &mut Dd<F>,
    row: &[F],
) -> Result<(), SolveFault>
    requires { length row.now ≡ dd.old.width }
    ensures ok { OnOk result (dd.new ≡ record {
      width = dd.old.width;
      rows = dd.old.rows ++ map F.value row.now ∷ [];
      list = step dd.old.rows dd.old.list (map F.value row.now);
    }) }
    ensures place { IfErr result (λ fault. OnLicence fault
        (λ licence. IsOver family (dd.old.rows ++ map F.value row.now ∷ []) licence.place)) }
    ensures told { IfErr result (λ fault. OnLicence fault (IsAlone F.holds)) }
    ensures left { (s : Setting)
        → IsAddition s dd.old.rows (map F.value row.now) dd.old.list family
        → IfErr result (Overflows F.holds s []) }
{
    match dd.add(row) {
        Ok(_) => Ok(()),
        Err(fault) => Err(add_fault(alloc, family, dd, row, fault)),
    }
}

/// Adds rows of a family, in their order.
fn add_all<F: Field>(
    alloc: Global,
    family: Family,
    dd: &mut Dd<F>,
    rows: &Rows<F>,
) -> Result<(), SolveFault>
    requires wide { rows.now.width ≡ dd.old.width }
    requires made { IsMadeOver dd.old.width dd.old.rows dd.old.list }
    ensures width { OnOk result (dd.new.width ≡ dd.old.width) }
    ensures rows { OnOk result (dd.new.rows ≡ dd.old.rows ++ numbers F.value rows.now.list) }
    ensures made { OnOk result (IsMadeOver dd.old.width dd.new.rows dd.new.list) }
    ensures place { IfErr result (λ fault. OnLicence fault
        (λ licence. IsOver family (dd.old.rows ++ numbers F.value rows.now.list) licence.place)) }
    ensures told { IfErr result (λ fault. OnLicence fault (IsAlone F.holds)) }
    ensures left { (s : Setting)
        → MayDescribe s family dd.old.width (dd.old.rows ++ numbers F.value rows.now.list)
        → IfErr result (Overflows F.holds s []) }
{
    for k in 0..rows.count() {
        add_row(alloc, family, dd, rows.row(k + 1))?;
    }
    Ok(())
}

/// The double description of the pointed cone where all rows of a family are at least 0: it begins
/// with as many independent rows as they have entries, the first that an elimination finds, and
/// adds the others in their order. After an overflow the licence has no trail.
pub fn describe_rows<F: Field>(
    alloc: Global,
    family: Family,
    rows: &Rows<F>,
) -> Result<Dd<F>, SolveFault>
    requires { HasFullRank rows.now.width (numbers F.value rows.now.list) }
    ensures ok { IfOk result (IsDescriptionOf rows.now.width (numbers F.value rows.now.list)) }
    ensures place { IfErr result (λ fault. OnLicence fault
        (λ licence. IsOver family (numbers F.value rows.now.list) licence.place)) }
    ensures told { IfErr result (λ fault. OnLicence fault (IsAlone F.holds)) }
    ensures left { (s : Setting)
        → MayDescribe s family rows.now.width (numbers F.value rows.now.list)
        → IfErr result (Overflows F.holds s []) }
{
    let picks = basis_of(alloc, rows)?;
    let others = other_numbers(alloc, rows.count(), picks.as_slice())?;
    let first = rows_at(alloc, rows, picks.as_slice())?;
    let more = rows_at(alloc, rows, others.as_slice())?;
    let mut dd = start_rows(alloc, &first)?;
    add_all(alloc, family, &mut dd, &more)?;
    Ok(dd)
}
