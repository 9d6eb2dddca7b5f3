//! From data and a duality vector to the log of the image over all its facets.
ghost use Rattle.std.specs.Prelude.{◌≡◌, List, IfErr, IfOk, map};
ghost use Rattle.benson_dual.specs.Images.{AreAllInUse, IsImage};
ghost use Rattle.benson_dual.specs.Logs.{IsFacetLog, task_with};
ghost use Rattle.cone_dual.specs.Fitting.{IsDualityOf};
ghost use Rattle.cone_rules.specs.Faults.{IsPointed};
ghost use Rattle.overflows.specs.Licence.{Licensed};
ghost use Rattle.lower_image.specs.Facets.{AreFacetCuts};
ghost use Rattle.lp_form.specs.Data.{IsDataOf};
ghost use Rattle.lp_form.specs.declared.shown.Cut.{Cut};
ghost use Rattle.outer_approx.specs.Standing.{IsEnded};
ghost use Rattle.outer_approx.specs.Task.{Task};
ghost use Rattle.overflows.specs.Faults.{OnLicence};
ghost use Rattle.recession.specs.First.{AreFirstCuts};
ghost use Rattle.vlp_problem.specs.declared.problem.Problem.{Problem as File};

use crate::image::Image;
use crate::order::orders;
use cone_dual::Duality;
use deriv_log::Entries;
use exact_field::Field;
use lower_image::{AllFacets, all_facets};
use lp_form::Data;
use outer_approx::{Line, places_of};
use overflows::SolveFault;
use recession::{First, Kept, contradiction_log, everything_log, first_cuts};
use src_sink::{Items, NoMemory};
use std::alloc::Global;

/// At most so many orders of the facets are tried.
const MOST_ORDERS: usize = 6;

/// A length as a number of 32 bits, or want of memory where it is none.
fn small_count(length: usize) -> Result<u32, NoMemory>
    ensures { IfOk result (λ count. count ≡ length) }
{
    match u32::try_from(length) {
        Ok(count) => Ok(count),
        Err(_) => Err(NoMemory),
    }
}

/// The log of an image over these facets, in the first of some orders in which no operation
/// overflows.
fn image_log_by<F: Field>(
    image: &Image<'_, F>,
    facets: &AllFacets<F>,
    kept: &mut Kept<F>,
) -> Result<Entries, SolveFault>
    ghost task: { Task }
    requires image { IsImage F.value F.holds task image.now }
    requires facets { AreFacetCuts F.value task facets.now.cuts.items }
    ensures ok { IfOk result (IsEnded task) }
    ensures facets { IfOk result (AreAllInUse task) }
    ensures left { IfErr result (λ fault. OnLicence fault (Licensed F.holds task.file task.c)) }
{
    let cuts = facets.cuts.as_slice();
    let count = small_count(cuts.len())?;
    let orders = orders(image.alloc, count, facets.touching.as_slice(), MOST_ORDERS)?;
    let approximation = image.in_first_order(cuts, orders.as_slice())?;
    approximation.into_log(image, kept)
}

/// The log of an image over its facets.
fn image_log<F: Field>(image: &Image<'_, F>, kept: &mut Kept<F>) -> Result<Entries, SolveFault>
    ghost task: { Task }
    requires image { IsImage F.value F.holds task image.now }
    requires pointed { IsPointed task.file }
    ensures ok { IfOk result (IsEnded task) }
    ensures facets { IfOk result (AreAllInUse task) }
    ensures left { IfErr result (λ fault. OnLicence fault (Licensed F.holds task.file task.c)) }
{
    let lines = image.lines.len() as u32;
    let facets = all_facets(image.alloc, image.form, image.c, image.x.as_slice(), lines)?;
    image_log_by(image, &facets, kept)
}

/// The log of an image that is neither empty nor everything, from its lines on. x is a feasible
/// point.
fn facet_log<F: Field>(
    alloc: Global,
    form: &Data<F>,
    duality: &Duality<F>,
    x: &Items<F>,
    lines: &[Line<F>],
    kept: &mut Kept<F>,
) -> Result<Entries, SolveFault>
    ghost file: { File }
    requires stands { IsDataOf F.value file form.now }
    requires duality { IsDualityOf F.value F.holds file duality.now }
    requires first { (cuts : List (Cut _))
        × AreFirstCuts F.value (task_with F.value file duality.now) x.now lines.now cuts }
    ensures ok { IfOk result (IsFacetLog F.holds file (map F.value duality.now.c)
        (map F.value duality.now.weights)) }
    ensures left { IfErr result (λ fault.
        OnLicence fault (Licensed F.holds file (map F.value duality.now.c))) }
{
    let places = places_of(alloc, form.p.len() as u32, lines)?;
    let image = Image {
        alloc,
        form,
        c: duality.c.as_slice(),
        weights: duality.weights.as_slice(),
        opening: &duality.entry,
        x,
        lines,
        places,
    };
    image_log(&image, kept)
}

/// The log as `dual` says, with what is kept of the last of Benson's programs.
fn dual_with<F: Field>(
    alloc: Global,
    form: &Data<F>,
    duality: &Duality<F>,
    kept: &mut Kept<F>,
) -> Result<Entries, SolveFault>
    ghost file: { File }
    requires stands { IsDataOf F.value file form.now }
    requires duality { IsDualityOf F.value F.holds file duality.now }
    ensures ok { IfOk result (IsFacetLog F.holds file (map F.value duality.now.c)
        (map F.value duality.now.weights)) }
    ensures left { IfErr result (λ fault.
        OnLicence fault (Licensed F.holds file (map F.value duality.now.c))) }
{
    match first_cuts(
        alloc,
        form,
        duality.c.as_slice(),
        duality.weights.as_slice(),
        kept,
    )? {
        First::Infeasible { u } => Ok(contradiction_log(alloc, u.as_slice())?),
        First::Whole { x, parts } => {
            let opening = duality.entry.copy(alloc)?;
            Ok(everything_log(alloc, opening, x.as_slice(), &parts)?)
        }
        First::Cuts { x, lines, .. } => {
            facet_log(alloc, form, duality, &x, lines.as_slice(), kept)
        }
    }
}

/// The log that describes the image of a problem: that it is infeasible, that its image is
/// everything, or its lines, vertices, extreme directions and facets. It is Benson's dual outer
/// approximation (Ehrgott, Löhne and Shao 2012): the facets are found first, by an outer
/// approximation of the lower image, and the log is written over them alone, so that each of its
/// cuts is a facet.
///
/// Up to six orders of the facets are tried, each from the facets at another vertex on. Where an
/// operation overflows in all of them the overflow of the last is told, with the entries so far in
/// this order as its trail. Pre-images are found for the order that went through; an overflow there
/// is told, and so is one of the search for the facets, which has no trail. Beside `all_facets` the
/// log costs an addition to a double description for each facet in each order, and a linear program
/// for each of its generators.
pub fn dual<F: Field>(
    alloc: Global,
    form: &Data<F>,
    duality: &Duality<F>,
) -> Result<Entries, SolveFault>
    ghost file: { File }
    requires stands { IsDataOf F.value file form.now }
    requires duality { IsDualityOf F.value F.holds file duality.now }
    ensures ok { IfOk result (IsFacetLog F.holds file (map F.value duality.now.c)
        (map F.value duality.now.weights)) }
    ensures left { IfErr result (λ fault.
        OnLicence fault (Licensed F.holds file (map F.value duality.now.c))) }
{
    let mut kept = Kept::new(alloc);
    dual_with(alloc, form, duality, &mut kept)
}
