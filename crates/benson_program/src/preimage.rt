//! Pre-images that are read off Benson's program.
ghost use Rattle.std.specs.Prelude.{◌≡◌, ◌≤◌, ◌+◌, ℕ, Bool, List, [], map, take, length, IfOk, IfErr};
ghost use Rattle.exact_field.specs.Rational.{ℚ, ◌<ℚ◌, neg_ℚ, zero_ℚ};
ghost use Rattle.benson_program.specs.Preimages.{AreLowMultipliers};
ghost use Rattle.overflows.specs.Preimages.{IsPreimageOf};
ghost use Rattle.overflows.specs.Base.{IsBaseStart};
ghost use Rattle.overflows.specs.Products.{AreBensonMultipliers};
ghost use Rattle.overflows.specs.Settings.{Knows, Setting};
ghost use Rattle.lp_form.specs.Data.{IsDataOf, cone_of};
ghost use Rattle.lp_form.specs.Programs.{full_share_of, generators, share_of, value_of};
ghost use Rattle.overflows.specs.Faults.{Overflows};
ghost use Rattle.polyhedra.specs.Vectors.{plus, scaled};
ghost use Rattle.upper_image.specs.Shows.{ShowsFitting};
ghost use Rattle.vlp_problem.specs.declared.problem.Problem.{Problem as File};

use crate::whole::generator_count;
use exact_field::{Field, is_negative};
use lin_rows::{Rows, combine};
use lp_form::{Data, Preimage, negative};
use overflows::{SolveFault, elimination_fault};
use src_sink::{Items, NoMemory};
use std::alloc::Global;

/// The first entries of a list.
fn front<F: Field>(alloc: Global, list: &[F], count: usize) -> Result<Items<F>, NoMemory>
    requires { count ≤ length list.now }
    ensures { IfOk result (λ front. front ≡ take count list.now) }
{
    let mut front = Items::new(alloc);
    front.append(&list[..count])?;
    Ok(front)
}

/// The multipliers of the generators that stand among those of the equations.
fn share<F: Field>(alloc: Global, form: &Data<F>, dual: &[F]) -> Result<Items<F>, NoMemory>
    requires { form.now.cols + length (generators (cone_of F.value form.now.cone))
        ≤ length dual.now }
    ensures { (file : File) → IsDataOf F.value file form.now
        → IfOk result (λ m. map F.value m ≡ share_of file file.cone (map F.value dual.now)) }
{
    let cols = form.cols as usize;
    negative(alloc, &dual[cols..cols + generator_count(&form.cone)])
}

/// A share, with the weights that combine the generators to the duality vector times the magnitude
/// of `last`, which is negative.
fn add_weights<F: Field>(
    alloc: Global,
    share: &[F],
    last: F,
    weights: &[F],
) -> Result<Items<F>, SolveFault>
    requires same { length share.now ≡ length weights.now }
    requires short { length share.now ≤ 4294967294 }
    requires negative { F.value last <ℚ zero_ℚ }
    ensures ok { IfOk result (λ m. map F.value m
        ≡ plus (map F.value share.now) (scaled (neg_ℚ (F.value last)) (map F.value weights.now))) }
    ensures left { (s : Setting) (y : List ℚ) → AreBensonMultipliers s y → F.value last ≡ value_of y
        → map F.value share.now ≡ share_of s.file s.file.cone y
        → map F.value weights.now ≡ s.weights → IfErr result (Overflows F.holds s []) }
{
    match combine(alloc, share, last.neg(), weights) {
        Ok(sum) => Ok(sum),
        Err(fault) => {
            let rows = Rows::new(alloc, 0);
            Err(elimination_fault(alloc, &rows, fault, Items::new(alloc)))
        }
    }
}

/// The multipliers of the generators, with the share of the duality vector where the last
/// multiplier is negative.
fn full_share<F: Field>(
    alloc: Global,
    form: &Data<F>,
    weights: &[F],
    dual: &[F],
) -> Result<Items<F>, SolveFault>
    requires weights { length weights.now ≡ length (generators (cone_of F.value form.now.cone)) }
    requires dual { (file : File) × (c v : List ℚ) × (t : Bool) × IsDataOf F.value file form.now
        × AreLowMultipliers file c v t (map F.value dual.now) }
    ensures ok { (file : File) → IsDataOf F.value file form.now
        → IfOk result (λ m. map F.value m
        ≡ full_share_of file file.cone (map F.value weights.now) (map F.value dual.now)) }
    ensures left { (s : Setting) → IsDataOf F.value s.file form.now
        → AreBensonMultipliers s (map F.value dual.now) → map F.value weights.now ≡ s.weights
        → IfErr result (Overflows F.holds s []) }
{
    let own = share(alloc, form, dual)?;
    let last = dual[dual.len() - 1];
    if is_negative(last) {
        add_weights(alloc, own.as_slice(), last, weights)
    } else {
        Ok(own)
    }
}

/// The pre-image that the multipliers of an optimum of Benson's program at `v` say, where its
/// value, the last multiplier, is not positive. The weights combine the generators to the duality
/// vector.
pub fn preimage_of<F: Field>(
    alloc: Global,
    form: &Data<F>,
    weights: &[F],
    dual: &[F],
) -> Result<Preimage<F>, SolveFault>
    requires weights { length weights.now ≡ length (generators (cone_of F.value form.now.cone)) }
    requires dual { (file : File) × (c v : List ℚ) × (t : Bool) × IsDataOf F.value file form.now
        × AreLowMultipliers file c v t (map F.value dual.now) }
    ensures ok { (file : File) (c v : List ℚ) (t : Bool) (picks : List ℕ) (inverse : List ℚ)
        → IsDataOf F.value file form.now → AreLowMultipliers file c v t (map F.value dual.now)
        → ShowsFitting file c (map F.value weights.now) picks inverse
        → IfOk result (IsPreimageOf F.value file c (map F.value weights.now) v t) }
    ensures left { (s : Setting) (c v : List ℚ) (t : Bool) → IsDataOf F.value s.file form.now
        → Knows s c → map F.value weights.now ≡ s.weights → IsBaseStart s.file.objs s.trail v t
        → AreLowMultipliers s.file c v t (map F.value dual.now)
        → IfErr result (Overflows F.holds s []) }
{
    let m = full_share(alloc, form, weights, dual)?;
    let x = front(alloc, dual, form.cols as usize)?;
    Ok(Preimage { x, m })
}
