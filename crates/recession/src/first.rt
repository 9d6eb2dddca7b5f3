//! The lines and first cuts of an image, or what shows that it has none.
ghost use Rattle.std.specs.Prelude.{◌≡◌, map, reverse, IfOk, IfErr};
ghost use Rattle.overflows.specs.Base.{IsBaseChoice};
ghost use Rattle.overflows.specs.Licence.{Licensed};
ghost use Rattle.lp_form.specs.Data.{IsDataOf};
ghost use Rattle.outer_approx.specs.Cuts.{IsCutFor};
ghost use Rattle.outer_approx.specs.Task.{IsFitting, Task};
ghost use Rattle.overflows.specs.Faults.{OnLicence};
ghost use Rattle.recession.specs.First.{IsFirst};

use crate::further::{Next, next_of};
use benson_program::{
    BensonEnd, FeasibleEnd, Kept, WholeParts, benson_end, cut_of, feasible_end, whole_of,
};
use exact_field::Field;
use lp_form::{Cut, Data, zeros};
use outer_approx::Line;
use overflows::SolveFault;
use src_sink::Items;
use std::alloc::Global;

/// How the description of an image begins.
#[derive(Debug, Drop)]
pub enum First<F: Drop> {
    /// No point is feasible.
    Infeasible {
        /// Multipliers of the sides that contradict each other.
        u: Items<F>,
    },
    /// The image is everything.
    Whole {
        /// A feasible point.
        x: Items<F>,
        /// What shows that the image is everything.
        parts: WholeParts<F>,
    },
    /// The image is neither empty nor everything.
    Cuts {
        /// A feasible point.
        x: Items<F>,
        /// The lines of the image, each with what shows it.
        lines: Items<Line<F>>,
        /// Cuts, with the lines as many as there are objectives. Without the entries at the places
        /// of the lines their normals are independent.
        cuts: Items<Cut<F>>,
    },
}

/// A list from its end.
fn reverse<T: Drop>(list: Items<T>) -> Items<T>
    ensures { result ≡ reverse list }
{
    let mut list = list.into_vec();
    list.reverse();
    Items::from_vec(list)
}

/// The lines and first cuts of an image, of which this is one. x is a feasible point. The lines are
/// found from the last to the first.
fn lines_and_cuts<F: Field>(
    alloc: Global,
    form: &Data<F>,
    c: &[F],
    weights: &[F],
    x: Items<F>,
    first: Cut<F>,
    kept: &mut Kept<F>,
) -> Result<First<F>, SolveFault>
    ghost task: { Task }
    requires stands { IsDataOf F.value task.file form.now }
    requires c { map F.value c.now ≡ task.c }
    requires weights { map F.value weights.now ≡ task.weights }
    requires fitting { IsFitting F.holds task }
    requires choice { IsBaseChoice task.file (map F.value x) }
    requires first { IsCutFor F.value task first }
    ensures ok { IfOk result (IsFirst F.value task) }
    ensures left { IfErr result (λ fault. OnLicence fault (Licensed F.holds task.file task.c)) }
{
    let mut cuts = Items::new(alloc);
    let mut lines = Items::new(alloc);
    cuts.push(first)?;
    while cuts.len() + lines.len() < form.p.len() {
        let next = next_of(
            alloc,
            form,
            c,
            weights,
            cuts.as_slice(),
            lines.as_slice(),
            kept,
        )?;
        match next {
            Next::Cut(cut) => cuts.push(cut)?,
            Next::Line(line) => lines.push(line)?,
        }
    }
    Ok(First::Cuts {
        x,
        lines: reverse(lines),
        cuts,
    })
}

/// How the description begins of an image that is not empty. x is a feasible point.
fn first_of_solvable<F: Field>(
    alloc: Global,
    form: &Data<F>,
    c: &[F],
    weights: &[F],
    x: Items<F>,
    kept: &mut Kept<F>,
) -> Result<First<F>, SolveFault>
    ghost task: { Task }
    requires stands { IsDataOf F.value task.file form.now }
    requires c { map F.value c.now ≡ task.c }
    requires weights { map F.value weights.now ≡ task.weights }
    requires fitting { IsFitting F.holds task }
    requires choice { IsBaseChoice task.file (map F.value x) }
    ensures ok { IfOk result (IsFirst F.value task) }
    ensures left { IfErr result (λ fault. OnLicence fault (Licensed F.holds task.file task.c)) }
{
    let origin = zeros(alloc, form.p.len() as u32)?;
    let end = benson_end(alloc, form, c, origin.as_slice(), true, kept)?;
    match end {
        BensonEnd::Optimal { z, .. } => {
            let first = cut_of(alloc, form, c, origin.as_slice(), true, z.as_slice())?;
            lines_and_cuts(alloc, form, c, weights, x, first, kept)
        }
        BensonEnd::Empty { dual, .. } => {
            let parts = whole_of(alloc, form, dual.as_slice())?;
            Ok(First::Whole { x, parts })
        }
    }
}

/// How the description of an image begins: whether no point is feasible, whether the image is
/// everything, and else its lines and its first cuts. `c` is the duality vector, and the weights
/// combine the generators of the ordering cone to it. It costs at most twice as many linear
/// programs as there are objectives, and keeps of them what shortens the next one.
pub fn first_cuts<F: Field>(
    alloc: Global,
    form: &Data<F>,
    c: &[F],
    weights: &[F],
    kept: &mut Kept<F>,
) -> Result<First<F>, SolveFault>
    ghost task: { Task }
    requires stands { IsDataOf F.value task.file form.now }
    requires c { map F.value c.now ≡ task.c }
    requires weights { map F.value weights.now ≡ task.weights }
    requires fitting { IsFitting F.holds task }
    ensures ok { IfOk result (IsFirst F.value task) }
    ensures left { IfErr result (λ fault. OnLicence fault (Licensed F.holds task.file task.c)) }
{
    let end = feasible_end(alloc, form)?;
    match end {
        FeasibleEnd::Contradiction { u } => Ok(First::Infeasible { u }),
        FeasibleEnd::Point { x } => first_of_solvable(alloc, form, c, weights, x, kept),
    }
}
