//! The ordering cone of a problem.
ghost use Rattle.std.specs.Prelude.{IfOk, IfErr};
ghost use Rattle.cone_dual.specs.Ends.{IsEnd};
ghost use Rattle.cone_dual.specs.Fitting.{IsDualityOf};
ghost use Rattle.lp_form.specs.Data.{IsDataOf};
ghost use Rattle.vlp_problem.specs.declared.problem.Problem.{Problem as File};

use crate::dual_form::dual_form_facts;
use crate::duality::{ConeEnd, Duality};
use crate::generators::generator_facts;
use crate::orthant::orthant_facts;
use exact_field::Field;
use lp_form::{ConeOf, Data};
use std::alloc::Global;

/// The duality vector of a problem, with what shows that it fits; or the first fault of the
/// ordering cone, or an overflow.
///
/// A vector that the file gives is divided by its last entry; without one it is all ones for the
/// orthant, and otherwise an interior vector that a linear program finds. The faults are looked for
/// in this order: the cone has no interior, it contains a line, the vector that the file gives is
/// not interior, its last entry is not positive or no interior vector has a positive one. The cost
/// is that of two linear programs over the vectors of the cone, and of one or two eliminations of
/// them.
pub fn cone_facts<F: Field>(alloc: Global, form: &Data<F>) -> Result<Duality<F>, ConeEnd>
    ensures ok { (file : File) → IsDataOf F.value file form.now
        → IfOk result (IsDualityOf F.value F.holds file) }
    ensures end { (file : File) → IsDataOf F.value file form.now
        → IfErr result (IsEnd F.holds file) }
{
    match &form.cone {
        ConeOf::Orthant => orthant_facts(alloc, form),
        ConeOf::Gens(vectors) => generator_facts(alloc, form, vectors.as_slice()),
        ConeOf::Dual(vectors) => dual_form_facts(alloc, form, vectors.as_slice()),
    }
}
