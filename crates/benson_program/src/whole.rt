//! What shows that an image is everything.
ghost use Rattle.std.specs.Prelude.{◌≡◌, ◌≤◌, List, [], map, take, drop, length, IfOk, IfErr};
ghost use Rattle.exact_field.specs.Rational.{ℚ};
ghost use Rattle.benson_program.specs.Wholes.{AreEmptyAtOrigin, IsWholeOf};
ghost use Rattle.overflows.specs.Settings.{Knows, Setting};
ghost use Rattle.lp_form.specs.Data.{IsDataOf, cone_of};
ghost use Rattle.lp_form.specs.Programs.{generators};
ghost use Rattle.overflows.specs.Faults.{Overflows};
ghost use Rattle.polyhedra.specs.Negatives.{negated};
ghost use Rattle.vlp_problem.specs.declared.problem.Problem.{Problem as File};

use exact_field::Field;
use lp_form::{ConeOf, Data, negative};
use overflows::{SolveFault, quotients_of};
use src_sink::{Items, NoMemory};
use std::alloc::Global;

/// A direction of the feasible set along which the objectives fall by the duality vector, with what
/// shows it.
#[derive(Debug, Drop)]
pub struct WholeParts<F: Drop> {
    /// The direction: a number for each variable.
    pub ray: Items<F>,
    /// A multiplier for each generator of the ordering cone, or none where it is given otherwise.
    pub m: Items<F>,
}

/// How many generators the ordering cone is given by.
pub(crate) fn generator_count<F: Field>(cone: &ConeOf<F>) -> usize
    ensures { result ≡ length (generators (cone_of F.value cone.now)) }
{
    match cone {
        ConeOf::Orthant | ConeOf::Dual(_) => 0,
        ConeOf::Gens(vectors) => vectors.len(),
    }
}

/// The first entries, and the negatives of the others.
fn whole_parts<F: Field>(alloc: Global, list: &[F], cols: usize) -> Result<WholeParts<F>, NoMemory>
    requires { cols ≤ length list.now }
    ensures ray { IfOk result (λ parts. parts.ray ≡ take cols list.now) }
    ensures m { IfOk result
        (λ parts. map F.value parts.m ≡ negated (map F.value (drop cols list.now))) }
{
    let mut ray = Items::new(alloc);
    ray.append(&list[..cols])?;
    let m = negative(alloc, &list[cols..])?;
    Ok(WholeParts { ray, m })
}

/// The direction that multipliers say which show that Benson's program at the origin has no
/// solution: those of the variables and of the generators, divided by the magnitude of the last,
/// which is negative.
pub fn whole_of<F: Field>(
    alloc: Global,
    form: &Data<F>,
    dual: &[F],
) -> Result<WholeParts<F>, SolveFault>
    requires { (file : File) × (c : List ℚ) × IsDataOf F.value file form.now
        × AreEmptyAtOrigin file c (map F.value dual.now) }
    ensures ok { (file : File) (c : List ℚ) → IsDataOf F.value file form.now
        → AreEmptyAtOrigin file c (map F.value dual.now) → IfOk result (IsWholeOf F.value file c) }
    ensures left { (s : Setting) (c : List ℚ) → IsDataOf F.value s.file form.now → Knows s c
        → AreEmptyAtOrigin s.file c (map F.value dual.now) → IfErr result (Overflows F.holds s []) }
{
    let cols = form.cols as usize;
    let count = cols + generator_count(&form.cone);
    let by = dual[dual.len() - 1].neg();
    let quotients = quotients_of(alloc, dual, count, by)?;
    Ok(whole_parts(alloc, quotients.as_slice(), cols)?)
}
