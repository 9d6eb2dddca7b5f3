//! The generators of a cone that is given by rows.

ghost use Rattle.std.specs.Prelude.{◌≡◌, IfErr, IfOk};
ghost use Rattle.polyhedra.specs.Cone.{HasFullRank};
ghost use Rattle.polyhedra.specs.LiveList.{vectors};
ghost use Rattle.polyhedra.specs.LiveSteps.{IsLive};
ghost use Rattle.deriv_log.specs.declared.licence.Family.TheVariants as family;
ghost use Rattle.lin_rows.specs.Read.{numbers};
ghost use Rattle.vlp_problem.specs.declared.problem.Problem.{Problem};
ghost use Rattle.overflows.specs.Licence.{LicensedWithout};
ghost use Rattle.overflows.specs.Faults.{OnLicence};
ghost use Rattle.cone_dual.specs.Generators.{AreConeRows, AreGenerators, AreMadeInOrder, IsAlone, IsOver};

use crate::described::describe_rows;
use deriv_log::Family;
use double_descr::Dd;
use exact_field::Field;
use lin_rows::Rows;
use overflows::SolveFault;
use src_sink::NoMemory;
use std::alloc::Global;

/// The live generators of a double description, in the order of their numbers.
fn generators_of<F: Field>(alloc: Global, dd: &Dd<F>, width: u32) -> Result<Rows<F>, NoMemory>
    requires { width ≡ dd.now.width }
    ensures width { IfOk result (λ out. out.width ≡ width) }
    ensures rows { IfOk result (λ out. numbers F.value out.list ≡ vectors dd.now.list.live) }
    ensures described { IfOk result (λ out. IsLive dd.now.width dd.now.rows dd.now.list) }
{
    let live = dd.live();
    let mut out = Rows::new(alloc, width);
    for number in live {
        out.push_row(dd.generator(*number))?;
    }
    Ok(out)
}

/// The generators of the pointed cone where all rows are at least 0: its normed extreme directions,
/// in the order in which double description numbers them, which begins with as many independent
/// rows as they have entries and adds the others in their order. After an overflow the licence has
/// no trail.
pub fn dual_gens<F: Field>(alloc: Global, rows: &Rows<F>) -> Result<Rows<F>, SolveFault>
    requires { HasFullRank rows.now.width (numbers F.value rows.now.list) }
    ensures width { IfOk result (λ out. out.width ≡ rows.now.width) }
    ensures generators { IfOk result (λ out. AreGenerators rows.now.width
        (numbers F.value rows.now.list) (numbers F.value out.list)) }
    ensures order { IfOk result (λ out. AreMadeInOrder rows.now.width
        (numbers F.value rows.now.list) (numbers F.value out.list)) }
    ensures place { IfErr result (λ fault. OnLicence fault
        (λ licence. IsOver family.ConeRows (numbers F.value rows.now.list) licence.place)) }
    ensures told { IfErr result (λ fault. OnLicence fault (IsAlone F.holds)) }
    ensures left { (file : Problem)
        → AreConeRows file rows.now.width (numbers F.value rows.now.list)
        → IfErr result (λ fault. OnLicence fault (LicensedWithout F.holds file)) }
{
    let dd = describe_rows(alloc, Family::ConeRows, rows)?;
    Ok(generators_of(alloc, &dd, rows.width())?)
}
