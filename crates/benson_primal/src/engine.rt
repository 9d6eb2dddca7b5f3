//! From data and a duality vector to the log that describes the image.
ghost use Rattle.std.specs.Prelude.{◌≡◌, [], map, All, IfOk, IfErr, IfSome, OnOk};
ghost use Rattle.cone_dual.specs.Fitting.{IsDualityOf};
ghost use Rattle.overflows.specs.Licence.{Licensed};
ghost use Rattle.lp_form.specs.Data.{IsDataOf};
ghost use Rattle.overflows.specs.Faults.{OnLicence, Overflows};
ghost use Rattle.outer_approx.specs.Cuts.{IsCutFor};
ghost use Rattle.outer_approx.specs.Standing.{IsEnded, IsOpenTrail, IsOpening};
ghost use Rattle.outer_approx.specs.Task.{Task, setting};
ghost use Rattle.recession.specs.Asking.{IsKnown};
ghost use Rattle.recession.specs.First.{AreFirstCuts};
ghost use Rattle.recession.specs.Logs.{IsOwnLog};
ghost use Rattle.vlp_problem.specs.declared.problem.Problem.{Problem as File};
ghost use Rattle.benson_primal.specs.Search.{IsSearching};

use crate::chain::{are_independent, chain_of};
use crate::search::{Scope, Search};
use cone_dual::Duality;
use deriv_log::{Entries, Entry, Licence};
use exact_field::Field;
use incid_sets::Marks;
use lp_form::{Cut, Data};
use outer_approx::{Line, end_solved, open_trail, places_of, start_outer};
use overflows::SolveFault;
use recession::{First, Kept, contradiction_log, everything_log, first_cuts};
use src_sink::{Items, NoMemory};
use std::alloc::Global;
use std::mem::replace;

/// Describes an image from the first state of its search on: first its directions, then its points.
fn describe<F: Field>(search: &mut Search<'_, F>) -> Result<(), SolveFault>
    ghost task: { Task }
    requires { IsSearching F.value F.holds task search.old }
    ensures ok { OnOk result (IsEnded task search.new.trail) }
    ensures trail { IfErr result
        (λ fault. OnLicence fault (λ licence. IsOpenTrail task search.new.trail)) }
    ensures left { IfErr result (Overflows F.holds (setting task search.new.trail) []) }
{
    search.directions()?;
    search.approximate(Scope::Both)?;
    end_solved(search.alloc, &mut search.trail, &search.dd)?;
    Ok(())
}

/// The log of an image, from the first state of its search on.
fn search_log<F: Field>(search: Search<'_, F>) -> Result<Entries, SolveFault>
    ghost task: { Task }
    requires { IsSearching F.value F.holds task search }
    ensures ok { IfOk result (IsEnded task) }
    ensures left { IfErr result (λ fault. OnLicence fault (Licensed F.holds task.file task.c)) }
{
    let mut search = search;
    let told = describe(&mut search);
    let entries = search.into_trail();
    match told {
        Ok(()) => Ok(entries),
        Err(fault) => Err(fault.with_trail(entries)),
    }
}

/// The log of an image, from its lines and first cuts on, and then from some known cuts. x is a
/// feasible point.
fn image_log<F: Field>(
    alloc: Global,
    form: &Data<F>,
    c: &[F],
    weights: &[F],
    opening: Entry,
    x: &Items<F>,
    lines: &[Line<F>],
    cuts: &[Cut<F>],
    known: &[Cut<F>],
    kept: &mut Kept<F>,
) -> Result<Entries, SolveFault>
    ghost task: { Task }
    requires known { IsKnown F.value F.holds task form.now c.now weights.now }
    requires opening { IsOpening task opening }
    requires first { AreFirstCuts F.value task x.now lines.now cuts.now }
    requires each { All (IsCutFor F.value task) known.now }
    ensures ok { IfOk result (IsEnded task) }
    ensures left { IfErr result (λ fault. OnLicence fault (Licensed F.holds task.file task.c)) }
{
    let mut trail = open_trail(alloc, opening, x, lines, cuts)?;
    let places = places_of(alloc, form.p.len() as u32, lines)?;
    match start_outer(alloc, places.as_slice(), &mut trail, cuts) {
        Err(fault) => Err(fault.with_trail(trail)),
        Ok(dd) => {
            let reached = Marks::new(alloc, 0)?;
            let kept = replace(kept, Kept::new(alloc));
            let mut search = Search {
                alloc,
                form,
                c,
                weights,
                places,
                trail,
                dd,
                reached,
                kept,
                failed: 0,
            };
            search.take_known(known)?;
            search_log(search)
        }
    }
}

/// A log, unless an operation overflowed.
fn unless_left(told: Result<Entries, SolveFault>) -> Result<Option<Entries>, NoMemory>
    ghost task: { Task }
    requires { IfOk told (IsEnded task) }
    ensures { IfOk result (λ r. IfSome r (IsEnded task)) }
{
    match told {
        Ok(log) => Ok(Some(log)),
        Err(SolveFault::Left(_)) => Ok(None),
        Err(SolveFault::NoMemory) => Err(NoMemory),
    }
}

/// A log that was found in the place of one that stopped at this overflow, if there is one.
fn log_or<F: Field>(
    found: Result<Option<Entries>, NoMemory>,
    overflow: Licence,
) -> Result<Entries, SolveFault>
    ghost task: { Task }
    requires found { IfOk found (λ r. IfSome r (IsEnded task)) }
    requires left { Licensed F.holds task.file task.c overflow }
    ensures ok { IfOk result (IsEnded task) }
    ensures left { IfErr result (λ fault. OnLicence fault (Licensed F.holds task.file task.c)) }
{
    match found {
        Ok(Some(log)) => Ok(log),
        Ok(None) => Err(SolveFault::Left(overflow)),
        Err(_) => Err(SolveFault::NoMemory),
    }
}

/// The log of an image of two objectives that has no line, by these cuts in their order along its
/// chain of facets, if no operation overflows. x is a feasible point.
fn chain_log<F: Field>(
    alloc: Global,
    form: &Data<F>,
    c: &[F],
    weights: &[F],
    opening: &Entry,
    x: &Items<F>,
    lines: &[Line<F>],
    cuts: &[Cut<F>],
    chain: &[Cut<F>],
) -> Result<Option<Entries>, NoMemory>
    ghost task: { Task }
    requires known { IsKnown F.value F.holds task form.now c.now weights.now }
    requires opening { IsOpening task opening.now }
    requires first { AreFirstCuts F.value task x.now lines.now cuts.now }
    requires two { task.file.objs ≡ 2 }
    requires none { lines.now ≡ [] }
    requires chain { All (IsCutFor F.value task) chain.now }
    ensures { IfOk result (λ r. IfSome r (IsEnded task)) }
{
    if chain.len() < 2 {
        return Ok(None);
    }
    let first = &chain[..2];
    if !are_independent(alloc, first)? {
        return Ok(None);
    }
    let known = &chain[2..];
    let copy = opening.copy(alloc)?;
    let mut kept = Kept::new(alloc);
    unless_left(image_log(
        alloc, form, c, weights, copy, x, lines, first, known, &mut kept,
    ))
}

/// The log of an image, from its lines and first cuts on, along the chain of facets: with two
/// objectives and no line, if no operation overflows. x is a feasible point.
fn log_along_chain<F: Field>(
    alloc: Global,
    form: &Data<F>,
    c: &[F],
    weights: &[F],
    opening: &Entry,
    x: &Items<F>,
    lines: &[Line<F>],
    cuts: &[Cut<F>],
) -> Result<Option<Entries>, NoMemory>
    ghost task: { Task }
    requires known { IsKnown F.value F.holds task form.now c.now weights.now }
    requires opening { IsOpening task opening.now }
    requires first { AreFirstCuts F.value task x.now lines.now cuts.now }
    ensures { IfOk result (λ r. IfSome r (IsEnded task)) }
{
    if form.p.len() != 2 {
        return Ok(None);
    }
    if lines.len() != 0 {
        return Ok(None);
    }
    let chain = chain_of(alloc, form, c, weights, &cuts[0])?;
    chain_log(alloc, form, c, weights, opening, x, lines, cuts, &chain)
}

/// The log of an image, from its lines and first cuts on: by the search, and where this overflows
/// along the chain of facets. x is a feasible point.
fn log_from<F: Field>(
    alloc: Global,
    form: &Data<F>,
    c: &[F],
    weights: &[F],
    opening: &Entry,
    x: &Items<F>,
    lines: &[Line<F>],
    cuts: &[Cut<F>],
    kept: &mut Kept<F>,
) -> Result<Entries, SolveFault>
    ghost task: { Task }
    requires known { IsKnown F.value F.holds task form.now c.now weights.now }
    requires opening { IsOpening task opening.now }
    requires first { AreFirstCuts F.value task x.now lines.now cuts.now }
    ensures ok { IfOk result (IsEnded task) }
    ensures left { IfErr result (λ fault. OnLicence fault (Licensed F.holds task.file task.c)) }
{
    let copy = opening.copy(alloc)?;
    let none = &cuts[..0];
    match image_log(alloc, form, c, weights, copy, x, lines, cuts, none, kept) {
        Err(SolveFault::Left(overflow)) => {
            let found = log_along_chain(alloc, form, c, weights, opening, x, lines, cuts);
            log_or::<F>(found, overflow)
        }
        told => told,
    }
}

/// The same, with an opening entry that is not needed any more.
fn log_of_image<F: Field>(
    alloc: Global,
    form: &Data<F>,
    c: &[F],
    weights: &[F],
    opening: Entry,
    x: &Items<F>,
    lines: &[Line<F>],
    cuts: &[Cut<F>],
    kept: &mut Kept<F>,
) -> Result<Entries, SolveFault>
    ghost task: { Task }
    requires known { IsKnown F.value F.holds task form.now c.now weights.now }
    requires opening { IsOpening task opening }
    requires first { AreFirstCuts F.value task x.now lines.now cuts.now }
    ensures ok { IfOk result (IsEnded task) }
    ensures left { IfErr result (λ fault. OnLicence fault (Licensed F.holds task.file task.c)) }
{
    log_from(alloc, form, c, weights, &opening, x, lines, cuts, kept)
}

/// The log as `primal` says, with what is kept of the last program.
fn primal_with<F: Field>(
    alloc: Global,
    form: &Data<F>,
    duality: Duality<F>,
    kept: &mut Kept<F>,
) -> Result<Entries, SolveFault>
    ghost file: { File }
    requires stands { IsDataOf F.value file form.now }
    requires duality { IsDualityOf F.value F.holds file duality }
    ensures ok { IfOk result
        (IsOwnLog F.holds file (map F.value duality.c) (map F.value duality.weights)) }
    ensures left { IfErr result
        (λ fault. OnLicence fault (Licensed F.holds file (map F.value duality.c))) }
{
    let Duality { c, weights, entry } = duality;
    let c = c.as_slice();
    let weights = weights.as_slice();
    match first_cuts(alloc, form, c, weights, kept)? {
        First::Infeasible { u } => Ok(contradiction_log(alloc, u.as_slice())?),
        First::Whole { x, parts } => Ok(everything_log(alloc, entry, x.as_slice(), &parts)?),
        First::Cuts { x, lines, cuts } => {
            let lines = lines.as_slice();
            let cuts = cuts.as_slice();
            log_of_image(alloc, form, c, weights, entry, &x, lines, cuts, kept)
        }
    }
}

/// The log that describes the image of a problem: that it is infeasible, that its image is
/// everything, or its lines, vertices, extreme directions and facets, found by Benson's outer
/// approximation (Benson 1998; Löhne 2011) in the image space. It differs from the textbook at two
/// places. A generator of the outer polyhedron with long entries is asked at a vector with short
/// ones near by first, since the cut that a linear program gives is valid whoever asks. And where
/// the addition of a cut overflows, those of the other open generators are tried, up to three
/// failed additions for each row in use. The overflow that is told is that of a cut which a
/// generator itself violates, or of the program that asks at it; the licence has the entries so far
/// as its trail. Before it is told of an image of two objectives without a line, a search is tried
/// that begins at one end of the chain of facets and takes one after the other.
pub fn primal<F: Field>(
    alloc: Global,
    form: &Data<F>,
    duality: Duality<F>,
) -> Result<Entries, SolveFault>
    ghost file: { File }
    requires stands { IsDataOf F.value file form.now }
    requires duality { IsDualityOf F.value F.holds file duality }
    ensures ok { IfOk result
        (IsOwnLog F.holds file (map F.value duality.c) (map F.value duality.weights)) }
    ensures left { IfErr result
        (λ fault. OnLicence fault (Licensed F.holds file (map F.value duality.c))) }
{
    let mut kept = Kept::new(alloc);
    primal_with(alloc, form, duality, &mut kept)
}
