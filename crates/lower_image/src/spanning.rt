//! Directions that span the ordering cone.
ghost use Rattle.std.specs.Prelude.{◌≡◌, ◌++◌, ◌∷◌, [], filter, length, map, not, IfErr, IfOk, OnOk};
ghost use Rattle.std.specs.List.{list_all};
ghost use Rattle.cone_rules.specs.Faults.{IsPointed};
ghost use Rattle.frac128.specs.Sparse.{is_zero as is_nought};
ghost use Rattle.overflows.specs.Licence.{LicensedWithout};
ghost use Rattle.lin_rows.specs.Read.{numbers};
ghost use Rattle.lower_image.specs.Lower.{AreSpanning};
ghost use Rattle.lp_form.specs.Data.{IsDataOf};
ghost use Rattle.overflows.specs.Faults.{OnLicence};
ghost use Rattle.polyhedra.specs.Vectors.{AreWide};
ghost use Rattle.tableaux.specs.Table.{listed, unit as unit_vector};
ghost use Rattle.vlp_problem.specs.declared.problem.Problem.{Problem as File};

use cone_dual::dual_gens;
use exact_field::Field;
use lin_rows::Rows;
use lp_form::{ConeOf, Data, is_zero_vector, unit};
use overflows::SolveFault;
use src_sink::{Items, NoMemory};
use std::alloc::Global;

/// Appends a vector, unless it is 0.
fn push_nonzero<F: Field>(rows: &mut Rows<F>, vector: &[F]) -> Result<(), NoMemory>
    requires { length vector.now ≡ rows.old.width }
    ensures width { rows.new.width ≡ rows.old.width }
    ensures ok { OnOk result (numbers F.value rows.new.list ≡ numbers F.value rows.old.list
        ++ filter (λ v. not (list_all is_nought v)) (map F.value vector.now ∷ [])) }
{
    if is_zero_vector(vector) {
        return Ok(());
    }
    rows.push_row(vector)
}

/// The vectors that are not 0, as rows.
fn nonzero_rows<F: Field>(alloc: Global, q: u32, vectors: &[Items<F>]) -> Result<Rows<F>, NoMemory>
    requires { AreWide q (numbers F.value vectors.now) }
    ensures width { IfOk result (λ rows. rows.width ≡ q) }
    ensures rows { IfOk result (λ rows. numbers F.value rows.list
        ≡ filter (λ v. not (list_all is_nought v)) (numbers F.value vectors.now)) }
{
    let mut rows = Rows::new(alloc, q);
    for vector in vectors {
        push_nonzero(&mut rows, vector.as_slice())?;
    }
    Ok(rows)
}

/// The unit vectors, as rows.
fn unit_rows<F: Field>(alloc: Global, q: u32) -> Result<Rows<F>, NoMemory>
    ensures width { IfOk result (λ rows. rows.width ≡ q) }
    ensures rows { IfOk result (λ rows. numbers F.value rows.list ≡ listed q (unit_vector q)) }
{
    let mut rows = Rows::new(alloc, q);
    for i in 0..q {
        let unit = unit(alloc, q, i + 1)?;
        rows.push_row(unit.as_slice())?;
    }
    Ok(rows)
}

/// Directions of the ordering cone, so many that a vector whose product with each is at least 0 is
/// in the dual cone: the unit vectors, the generators that are given, or those of the dual form,
/// without the vectors that are 0. An overflow is one of a double description of the dual form.
pub(crate) fn spanning_rows<F: Field>(alloc: Global, form: &Data<F>) -> Result<Rows<F>, SolveFault>
    ghost file: { File }
    requires stands { IsDataOf F.value file form.now }
    requires pointed { IsPointed file }
    ensures width { IfOk result (λ rows. rows.width ≡ file.objs) }
    ensures ok { IfOk result (λ rows. AreSpanning file (numbers F.value rows.list)) }
    ensures left { IfErr result (λ fault. OnLicence fault (LicensedWithout F.holds file)) }
{
    let q = form.p.len() as u32;
    match &form.cone {
        ConeOf::Orthant => Ok(unit_rows(alloc, q)?),
        ConeOf::Gens(vectors) => Ok(nonzero_rows(alloc, q, vectors.as_slice())?),
        ConeOf::Dual(vectors) => {
            let rows = nonzero_rows(alloc, q, vectors.as_slice())?;
            dual_gens(alloc, &rows)
        }
    }
}
