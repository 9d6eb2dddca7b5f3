//! What the program of a generator's weight says: that the generator is a cut, or a row at which it
//! is negative.
ghost use Rattle.std.specs.Prelude.{◌≡◌, ◌≤◌, ◌<◌, ◌-◌, ◌∷◌, List, [], map, take, length, IfOk, IfErr};
ghost use Rattle.exact_field.specs.Rational.{ℚ, one_ℚ};
ghost use Rattle.exact_field.specs.Vector.{entry};
ghost use Rattle.deriv_log.specs.declared.entry.Entry.{Entry};
ghost use Rattle.overflows.specs.Base.{IsBaseRow, weight_of};
ghost use Rattle.overflows.specs.Products.{IsBaseX};
ghost use Rattle.lp_form.specs.Data.{IsDataOf};
ghost use Rattle.lp_form.specs.Programs.{choice_of};
ghost use Rattle.outer_approx.specs.Task.{IsFitting, Task, setting};
ghost use Rattle.overflows.specs.Turns.{said_exchange};
ghost use Rattle.overflows.specs.Faults.{Overflows};
ghost use Rattle.polyhedra.specs.Negatives.{negated};
ghost use Rattle.vlp_problem.specs.Sides.{IsFeasible};
ghost use Rattle.lower_image.specs.Rows.{IsWeighable, IsWeighed};

use crate::certificate::weight_cut_of;
use crate::ends::WeightEnd;
use crate::kept::KeptWeights;
use crate::rows::{exchanged_row, image_at};
use crate::solving::weight_end;
use exact_field::Field;
use lp_form::{Cut, Data};
use overflows::{SolveFault, sum_of_products, term_fault};
use src_sink::{Items, NoMemory};
use std::alloc::Global;

/// What the program of a generator's weight says.
#[derive(Debug, Drop)]
pub enum Weighed<F: Drop> {
    /// The generator stands for a cut.
    Certified(Cut<F>),
    /// It stands for none: the row of a point or of a direction of the image, which is negative at
    /// the generator.
    Row(Items<F>),
}

/// The first `count` numbers of a list after another number.
fn put_first<F: Field>(
    alloc: Global,
    first: F,
    list: &[F],
    count: usize,
) -> Result<Items<F>, NoMemory>
    requires { count ≤ length list.now }
    ensures { IfOk result (λ out. out ≡ first ∷ take count list.now) }
{
    let mut out = Items::new(alloc);
    out.push(first)?;
    out.append(&list[..count])?;
    Ok(out)
}

/// 1, and the negatives of all numbers of a list but the last.
fn completion<F: Field>(alloc: Global, c: &[F]) -> Result<Items<F>, NoMemory>
    requires { 1 ≤ length c.now }
    ensures { IfOk result (λ out. map F.value out ≡ one_ℚ
        ∷ negated (take (length c.now - 1) (map F.value c.now))) }
{
    let mut out = Items::new(alloc);
    out.push(F::one())?;
    for i in 0..c.len() - 1 {
        out.push(c[i].neg())?;
    }
    Ok(out)
}

/// The weight of a generator with last entry 1: its first entries, and the one with which its
/// product with `c` is 1.
fn weight_at<F: Field>(alloc: Global, c: &[F], generator: &[F]) -> Result<Items<F>, SolveFault>
    ghost task: { Task }
    requires c { map F.value c.now ≡ task.c }
    requires fitting { IsFitting F.holds task }
    requires generator { (rows : List (List ℚ))
        × IsWeighable task rows (map F.value generator.now) }
    ensures ok { IfOk result (λ w. map F.value w ≡ weight_of task.c (map F.value generator.now)) }
    ensures left { (trail : List Entry) → IfErr result (Overflows F.holds (setting task trail) []) }
{
    let last = c.len() - 1;
    let one = completion(alloc, c)?;
    let parts = put_first(alloc, generator[generator.len() - 1], generator, last)?;
    match sum_of_products(one.as_slice(), parts.as_slice()) {
        Ok(entry) => {
            let mut w = Items::new(alloc);
            w.append(&generator[..last])?;
            w.push(entry)?;
            Ok(w)
        }
        Err(fault) => Err(term_fault(alloc, fault, Items::new(alloc))),
    }
}

/// The row of the point or of the direction that multipliers of the program of a weight say.
fn row_of<F: Field>(
    alloc: Global,
    form: &Data<F>,
    c: &[F],
    dual: &[F],
    t: bool,
) -> Result<Items<F>, SolveFault>
    ghost task: { Task }
    requires stands { IsDataOf F.value task.file form.now }
    requires c { map F.value c.now ≡ task.c }
    requires fitting { IsFitting F.holds task }
    requires long { form.now.cols ≤ length dual.now }
    requires read { (trail : List Entry)
        → IsBaseX (setting task trail) (choice_of task.file (map F.value dual.now)) }
    requires base { IsBaseRow task.file task.c (said_exchange task.file task.c
        (map F.value dual.now) t) }
    ensures ok { IfOk result
        (λ row. map F.value row ≡ said_exchange task.file task.c (map F.value dual.now) t) }
    ensures left { (trail : List Entry) → IfErr result (Overflows F.holds (setting task trail) []) }
{
    let y = image_at(alloc, form, &dual[..form.cols as usize])?;
    exchanged_row(alloc, c, y.as_slice(), t)
}

/// What the program of the weight of a live generator of the cone of dual vectors says: the cut for
/// which the generator stands, or a row that is negative there.
pub fn weigh_generator<F: Field>(
    alloc: Global,
    form: &Data<F>,
    c: &[F],
    generator: &[F],
    kept: &mut KeptWeights<F>,
) -> Result<Weighed<F>, SolveFault>
    ghost task: { Task }
    requires stands { IsDataOf F.value task.file form.now }
    requires c { map F.value c.now ≡ task.c }
    requires fitting { IsFitting F.holds task }
    requires solvable { (x : List ℚ) × IsFeasible task.file x }
    requires generator { (rows : List (List ℚ))
        × IsWeighable task rows (map F.value generator.now) }
    ensures ok { (rows : List (List ℚ)) → IsWeighable task rows (map F.value generator.now)
        → IfOk result (IsWeighed F.value task rows (map F.value generator.now)) }
    ensures left { (trail : List Entry) → IfErr result (Overflows F.holds (setting task trail) []) }
{
    let w = weight_at(alloc, c, generator)?;
    match weight_end(alloc, form, c, w.as_slice(), kept)? {
        WeightEnd::Empty { dual, basis } => {
            kept.basis = basis;
            let row = row_of(alloc, form, c, dual.as_slice(), false)?;
            Ok(Weighed::Row(row))
        }
        WeightEnd::Optimal { z, dual, basis } => {
            kept.basis = basis;
            let cut = weight_cut_of(alloc, form, w.as_slice(), z.as_slice())?;
            if cut.gamma == generator[generator.len() - 2] {
                return Ok(Weighed::Certified(cut));
            }
            let row = row_of(alloc, form, c, dual.as_slice(), true)?;
            Ok(Weighed::Row(row))
        }
    }
}
