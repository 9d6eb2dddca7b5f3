//! Cones in dual form: the vectors whose product with each given vector is at least 0.
ghost use Rattle.std.specs.Prelude.{◌≡◌, ◌≤◌, [], ◌∷◌, false, All, Contains, map, length, IfOk, IfErr, OnOk, IsTrue};
ghost use Rattle.std.specs.List.{list_all};
ghost use Rattle.exact_field.specs.Rational.{zero_ℚ, one_ℚ, ◌≤ℚ◌, ◌<ℚ◌};
ghost use Rattle.exact_field.specs.Vector.{dot};
ghost use Rattle.cone_dual.specs.Ends.{IsEnd};
ghost use Rattle.cone_dual.specs.Fitting.{IsDualityOf, IsInsideRows};
ghost use Rattle.cone_rules.specs.Faults.{CombinesToMinusLast, HasInterior, HasNoLine};
ghost use Rattle.cone_rules.specs.declared.fault.ConeFault.TheVariants as fault_of;
ghost use Rattle.frac128.specs.Sparse.{is_zero as is_nought};
ghost use Rattle.overflows.specs.Base.{AreFirstMultipliersOff};
ghost use Rattle.overflows.specs.Licence.{LicensedByCone};
ghost use Rattle.overflows.specs.Trails.{IsInteriorOff};
ghost use Rattle.lin_rows.specs.Read.{numbers};
ghost use Rattle.lp_form.specs.Data.{IsDataOf, cone_of};
ghost use Rattle.lp_form.specs.Programs.{interior_of_dual, nonzero_vectors};
ghost use Rattle.lp_form.specs.declared.data.ConeOf.TheVariants as cone;
ghost use Rattle.overflows.specs.Faults.{OnLicence};
ghost use Rattle.tableaux.specs.Simplex.{IsInfeasible};
ghost use Rattle.vlp_problem.specs.Values.{cone_vectors};
ghost use Rattle.vlp_problem.specs.declared.problem.Cone.TheVariants as form_of;
ghost use Rattle.vlp_problem.specs.declared.problem.Problem.{Problem as File};

use crate::asking::{independent_vectors, interior_end};
use crate::combining::{spread_over, zero_combination};
use crate::duality::{ConeEnd, Duality};
use crate::given::{duality_with, not_interior_fault, scale_given};
use cone_rules::ConeFault;
use exact_field::{Field, is_positive};
use exact_simplex::LpEnd;
use frac128::{Frac, Sparse, Spot};
use lin_rows::Indep;
use lp_form::{Data, difference, is_zero_vector, negative};
use overflows::{SolveFault, fractions, quotients_of, spots_of, sum_of_products, term_fault};
use src_sink::{Items, NoMemory};
use std::alloc::Global;

/// That the vectors do not combine to 0.
fn require_solid<F: Field>(
    alloc: Global,
    form: &Data<F>,
    vectors: &[Items<F>],
) -> Result<(), ConeEnd>
    requires { form.now.cone ≡ cone.Dual vectors.now }
    ensures ok { OnOk result (HasInterior (length form.now.p) (cone_of F.value form.now.cone)) }
    ensures end { (file : File) → IsDataOf F.value file form.now
        → IfErr result (IsEnd F.holds file) }
{
    match zero_combination(alloc, form, vectors)? {
        None => Ok(()),
        Some(flat) => Err(ConeEnd::Fault(ConeFault::NotSolid {
            w: flat.first,
            m: flat.m,
        })),
    }
}

/// That no vector is orthogonal to all vectors.
fn require_no_line<F: Field>(
    alloc: Global,
    form: &Data<F>,
    vectors: &[Items<F>],
) -> Result<(), ConeEnd>
    requires rows { form.now.cone ≡ cone.Dual vectors.now }
    requires solid { HasInterior (length form.now.p) (cone_of F.value form.now.cone) }
    ensures ok { OnOk result (HasNoLine (length form.now.p) (cone_of F.value form.now.cone)) }
    ensures end { (file : File) → IsDataOf F.value file form.now
        → IfErr result (IsEnd F.holds file) }
{
    match independent_vectors(alloc, form, vectors)? {
        Indep::Basis(_) => Ok(()),
        Indep::Orthogonal(d) => {
            let d = fractions(alloc, d.as_slice())?;
            Err(ConeEnd::Fault(ConeFault::HasLine {
                d,
                m: Items::new(alloc),
            }))
        }
    }
}

/// Whether a vector is not 0, and its product with f is not positive.
fn is_against<F: Field>(
    alloc: Global,
    form: &Data<F>,
    vector: &[F],
    f: &[F],
) -> Result<bool, SolveFault>
    requires duality { form.now.duality ≡ Some f.now }
    requires wide { length vector.now ≡ length f.now }
    ensures no { IfOk result (λ against. against ≡ false
        → list_all is_nought (map F.value vector.now) ≡ false
        → zero_ℚ <ℚ dot (map F.value vector.now) (map F.value f.now)) }
    ensures yes { IfOk result (λ against. IsTrue against
        → (list_all is_nought (map F.value vector.now) ≡ false)
        × (dot (map F.value vector.now) (map F.value f.now) ≤ℚ zero_ℚ)) }
    ensures left { (file : File) → IsDataOf F.value file form.now
        → Contains (cone_vectors file.cone) (map F.value vector.now)
        → IfErr result (λ fault. OnLicence fault (LicensedByCone F.holds file)) }
{
    if is_zero_vector(vector) {
        return Ok(false);
    }
    match sum_of_products(vector, f) {
        Ok(product) => Ok(!is_positive(product)),
        Err(fault) => Err(term_fault(alloc, fault, Items::new(alloc))),
    }
}

/// That the product of each vector that is not 0 with the vector that is given is positive.
fn require_inside<F: Field>(
    alloc: Global,
    form: &Data<F>,
    vectors: &[Items<F>],
    f: &[F],
) -> Result<(), ConeEnd>
    requires rows { form.now.cone ≡ cone.Dual vectors.now }
    requires duality { form.now.duality ≡ Some f.now }
    requires solid { HasInterior (length form.now.p) (cone_of F.value form.now.cone) }
    requires pointed { HasNoLine (length form.now.p) (cone_of F.value form.now.cone) }
    ensures ok { OnOk result (All (λ v. zero_ℚ <ℚ dot v (map F.value f.now))
        (nonzero_vectors (form_of.Dual (numbers F.value vectors.now)))) }
    ensures end { (file : File) → IsDataOf F.value file form.now
        → IfErr result (IsEnd F.holds file) }
{
    for k in 0..vectors.len() {
        let vector = vectors[k].as_slice();
        if is_against(alloc, form, vector, f)? {
            return Err(ConeEnd::Fault(outside_fault(alloc, vector, k as u32 + 1)?));
        }
    }
    Ok(())
}

/// The fault of the vector with this number, at which the vector that is given is not positive.
fn outside_fault<F: Field>(alloc: Global, vector: &[F], number: u32) -> Result<ConeFault, NoMemory>
    ensures { IfOk result (λ fault. fault ≡ fault_of.NotInterior (map F.value vector.now)
        (record { at = number; value = one_ℚ } ∷ [])) }
{
    let mut v = Items::new(alloc);
    v.push(Spot {
        at: number,
        value: Frac::one(),
    })?;
    not_interior_fault(alloc, vector, v)
}

/// The multipliers that combine the vectors to minus the last unit vector.
fn last_fault<F: Field>(
    alloc: Global,
    form: &Data<F>,
    vectors: &[Items<F>],
    y: &[F],
) -> Result<Sparse, SolveFault>
    requires rows { form.now.cone ≡ cone.Dual vectors.now }
    requires short { length y.now ≤ 4294967294 }
    requires infeasible { IsInfeasible (interior_of_dual (length form.now.p)
        (nonzero_vectors (form_of.Dual (numbers F.value vectors.now)))) (map F.value y.now) }
    ensures ok { IfOk result
        (CombinesToMinusLast (length form.now.p) (numbers F.value vectors.now)) }
    ensures left { (file : File) → IsDataOf F.value file form.now
        → AreFirstMultipliersOff (interior_of_dual (length form.now.p)
        (nonzero_vectors (form_of.Dual (numbers F.value vectors.now)))) (map F.value y.now)
        → IfErr result (λ fault. OnLicence fault (LicensedByCone F.holds file)) }
{
    let n = y.len() - 2;
    let quotients = quotients_of(alloc, y, n, y[n].neg())?;
    let shares = negative(alloc, quotients.as_slice())?;
    let spread = spread_over(alloc, vectors, shares.as_slice())?;
    Ok(spots_of(alloc, spread.as_slice())?)
}

/// An interior vector with last entry 1.
fn interior_vector<F: Field>(
    alloc: Global,
    form: &Data<F>,
    vectors: &[Items<F>],
) -> Result<Items<F>, ConeEnd>
    requires rows { form.now.cone ≡ cone.Dual vectors.now }
    requires duality { form.now.duality ≡ None }
    requires solid { HasInterior (length form.now.p) (cone_of F.value form.now.cone) }
    requires pointed { HasNoLine (length form.now.p) (cone_of F.value form.now.cone) }
    ensures ok { IfOk result
        (λ c. IsInsideRows (length form.now.p) (numbers F.value vectors.now) (map F.value c)) }
    ensures read { (file : File) → IsDataOf F.value file form.now
        → IfOk result (λ c. IsInteriorOff file (map F.value c)) }
    ensures end { (file : File) → IsDataOf F.value file form.now
        → IfErr result (IsEnd F.holds file) }
{
    let q = form.p.len();
    match interior_end(alloc, form)? {
        LpEnd::Optimal { x, .. } => {
            let z = x.as_slice();
            Ok(difference(alloc, &z[..q], &z[q..q + q])?)
        }
        LpEnd::Infeasible { farkas, .. } => {
            let m = last_fault(alloc, form, vectors, farkas.as_slice())?;
            Err(ConeEnd::Fault(ConeFault::LastNotPositive { m }))
        }
        LpEnd::Unbounded { .. } => unreachable!(),
    }
}

/// The vector that is given, divided by its last entry.
fn given_duality<F: Field>(
    alloc: Global,
    form: &Data<F>,
    vectors: &[Items<F>],
    f: &[F],
) -> Result<Duality<F>, ConeEnd>
    requires rows { form.now.cone ≡ cone.Dual vectors.now }
    requires duality { form.now.duality ≡ Some f.now }
    requires solid { HasInterior (length form.now.p) (cone_of F.value form.now.cone) }
    requires pointed { HasNoLine (length form.now.p) (cone_of F.value form.now.cone) }
    ensures ok { (file : File) → IsDataOf F.value file form.now
        → IfOk result (IsDualityOf F.value F.holds file) }
    ensures end { (file : File) → IsDataOf F.value file form.now
        → IfErr result (IsEnd F.holds file) }
{
    require_inside(alloc, form, vectors, f)?;
    let c = scale_given(alloc, form, f)?;
    Ok(duality_with(alloc, c, Items::new(alloc), Items::new(alloc), &[])?)
}

/// An interior vector that is found.
fn found_duality<F: Field>(
    alloc: Global,
    form: &Data<F>,
    vectors: &[Items<F>],
) -> Result<Duality<F>, ConeEnd>
    requires rows { form.now.cone ≡ cone.Dual vectors.now }
    requires duality { form.now.duality ≡ None }
    requires solid { HasInterior (length form.now.p) (cone_of F.value form.now.cone) }
    requires pointed { HasNoLine (length form.now.p) (cone_of F.value form.now.cone) }
    ensures ok { (file : File) → IsDataOf F.value file form.now
        → IfOk result (IsDualityOf F.value F.holds file) }
    ensures end { (file : File) → IsDataOf F.value file form.now
        → IfErr result (IsEnd F.holds file) }
{
    let c = interior_vector(alloc, form, vectors)?;
    Ok(duality_with(alloc, c, Items::new(alloc), Items::new(alloc), &[])?)
}

/// All of a cone in dual form.
pub fn dual_form_facts<F: Field>(
    alloc: Global,
    form: &Data<F>,
    vectors: &[Items<F>],
) -> Result<Duality<F>, ConeEnd>
    requires { form.now.cone ≡ cone.Dual vectors.now }
    ensures ok { (file : File) → IsDataOf F.value file form.now
        → IfOk result (IsDualityOf F.value F.holds file) }
    ensures end { (file : File) → IsDataOf F.value file form.now
        → IfErr result (IsEnd F.holds file) }
{
    require_solid(alloc, form, vectors)?;
    require_no_line(alloc, form, vectors)?;
    match &form.duality {
        Some(f) => given_duality(alloc, form, vectors, f.as_slice()),
        None => found_duality(alloc, form, vectors),
    }
}
