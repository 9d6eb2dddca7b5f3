//! The orthant as the ordering cone.
ghost use Rattle.std.specs.Prelude.{◌≡◌, All, map, IfOk, IfErr, OnOk};
ghost use Rattle.exact_field.specs.Rational.{zero_ℚ, ◌<ℚ◌};
ghost use Rattle.cone_dual.specs.Ends.{IsEnd};
ghost use Rattle.cone_dual.specs.Fitting.{IsDualityOf};
ghost use Rattle.lp_form.specs.Data.{IsDataOf};
ghost use Rattle.lp_form.specs.declared.data.ConeOf.TheVariants as cone;
ghost use Rattle.vlp_problem.specs.declared.problem.Problem.{Problem as File};

use crate::duality::{ConeEnd, Duality};
use crate::given::{duality_with, not_interior_fault, scale_given};
use crate::lists::first_not_positive;
use exact_field::Field;
use lp_form::{Data, push_ones, unit};
use src_sink::{Items, NoMemory};
use std::alloc::Global;

/// That all entries of the vector that is given are positive.
fn require_positive<F: Field>(alloc: Global, form: &Data<F>, f: &[F]) -> Result<(), ConeEnd>
    requires cone { form.now.cone ≡ cone.Orthant }
    requires duality { form.now.duality ≡ Some f.now }
    ensures positive { OnOk result (All (λ x. zero_ℚ <ℚ x) (map F.value f.now)) }
    ensures end { (file : File) → IsDataOf F.value file form.now
        → IfErr result (IsEnd F.holds file) }
{
    match first_not_positive(f) {
        None => Ok(()),
        Some(k) => {
            let w: Items<F> = unit(alloc, f.len() as u32, k as u32 + 1)?;
            let fault = not_interior_fault(alloc, w.as_slice(), Items::new(alloc))?;
            Err(ConeEnd::Fault(fault))
        }
    }
}

/// The vector that is given, divided by its last entry.
fn given_duality<F: Field>(alloc: Global, form: &Data<F>, f: &[F]) -> Result<Duality<F>, ConeEnd>
    requires cone { form.now.cone ≡ cone.Orthant }
    requires duality { form.now.duality ≡ Some f.now }
    ensures ok { (file : File) → IsDataOf F.value file form.now
        → IfOk result (IsDualityOf F.value F.holds file) }
    ensures end { (file : File) → IsDataOf F.value file form.now
        → IfErr result (IsEnd F.holds file) }
{
    require_positive(alloc, form, f)?;
    let c = scale_given(alloc, form, f)?;
    Ok(duality_with(alloc, c, Items::new(alloc), Items::new(alloc), &[])?)
}

/// All ones, which is interior to the orthant.
fn ones<F: Field>(alloc: Global, form: &Data<F>) -> Result<Duality<F>, NoMemory>
    requires cone { form.now.cone ≡ cone.Orthant }
    requires duality { form.now.duality ≡ None }
    ensures { (file : File) → IsDataOf F.value file form.now
        → IfOk result (IsDualityOf F.value F.holds file) }
{
    let mut c = Items::new(alloc);
    push_ones(&mut c, form.p.len() as u32)?;
    duality_with(alloc, c, Items::new(alloc), Items::new(alloc), &[])
}

/// All of the orthant: ones, or the vector that is given.
pub fn orthant_facts<F: Field>(alloc: Global, form: &Data<F>) -> Result<Duality<F>, ConeEnd>
    requires { form.now.cone ≡ cone.Orthant }
    ensures ok { (file : File) → IsDataOf F.value file form.now
        → IfOk result (IsDualityOf F.value F.holds file) }
    ensures end { (file : File) → IsDataOf F.value file form.now
        → IfErr result (IsEnd F.holds file) }
{
    match &form.duality {
        Some(f) => given_duality(alloc, form, f.as_slice()),
        None => Ok(ones(alloc, form)?),
    }
}
