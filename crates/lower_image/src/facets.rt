//! All facets of an image.
ghost use Rattle.std.specs.Prelude.{◌≡◌, List, [], map, IfErr, IfOk};
ghost use Rattle.cone_rules.specs.Faults.{IsPointed};
ghost use Rattle.deriv_log.specs.declared.entry.Entry.{Entry};
ghost use Rattle.overflows.specs.Base.{IsBaseChoice};
ghost use Rattle.overflows.specs.Licence.{Licensed};
ghost use Rattle.lin_rows.specs.Read.{numbers};
ghost use Rattle.lower_image.specs.Facets.{AreFacetCuts};
ghost use Rattle.lower_image.specs.Lower.{AreSpanning};
ghost use Rattle.lp_form.specs.Data.{IsDataOf};
ghost use Rattle.outer_approx.specs.Task.{IsFitting, Task, setting};
ghost use Rattle.overflows.specs.Faults.{OnLicence, Overflows};

use crate::kept::KeptWeights;
use crate::search::Search;
use crate::spanning::spanning_rows;
use crate::starting::lower_description;
use crate::touching::touching_facets;
use exact_field::Field;
use incid_sets::Marks;
use lin_rows::Rows;
use lp_form::{Cut, Data};
use overflows::SolveFault;
use src_sink::Items;
use std::alloc::Global;

/// All facets of an image.
#[derive(Debug, Drop)]
pub struct AllFacets<F: Drop> {
    /// The facets as cuts, each once.
    pub cuts: Vec<Cut<F>>,
    /// For each point found at which at least as many facets touch as there are objectives less the
    /// lines of the image, the places in `cuts`, from 0, of those that touch it. Points with short
    /// entries come first. No clause speaks of it.
    pub touching: Vec<Items<u32>>,
}

/// All facets, from directions on that span the ordering cone. At the points of `touching` at least
/// so many facets touch.
fn facets_over<F: Field>(
    alloc: Global,
    form: &Data<F>,
    c: &[F],
    x: &[F],
    directions: &Rows<F>,
    least: usize,
) -> Result<AllFacets<F>, SolveFault>
    ghost task: { Task }
    requires stands { IsDataOf F.value task.file form.now }
    requires c { map F.value c.now ≡ task.c }
    requires fitting { IsFitting F.holds task }
    requires choice { IsBaseChoice task.file (map F.value x.now) }
    requires width { directions.now.width ≡ task.file.objs }
    requires directions { AreSpanning task.file (numbers F.value directions.now.list) }
    ensures ok { IfOk result (λ found. AreFacetCuts F.value task found.cuts.items) }
    ensures left { (trail : List Entry) → IfErr result (Overflows F.holds (setting task trail) []) }
{
    let dd = lower_description(alloc, form, c, x, directions)?;
    let marks = Marks::new(alloc, 0)?;
    let mut search = Search {
        alloc,
        form,
        c,
        dd,
        cuts: Items::new(alloc),
        certified: Items::new(alloc),
        marks,
        kept: KeptWeights::new(alloc),
    };
    search.approximate()?;
    let touching = touching_facets(alloc, &search.dd, search.certified.as_slice(), least)?;
    Ok(AllFacets {
        cuts: search.into_cuts(),
        touching,
    })
}

/// All facets of an image that is neither empty nor everything, by an outer approximation of its
/// lower image. `c` is the duality vector, `x` a feasible point, and `lines` the number of the
/// image's lines.
///
/// The cone of dual vectors is cut out by the rows of points and directions, those of x and of
/// directions that span the ordering cone first. Each of its generators that stands for an
/// inequality is asked by the linear program of its weight: it is a facet, or a row follows at
/// which it is negative. So the cost is that of a linear program for each facet and for each
/// further row, each beginning at the basis at which the last one ended, and of an addition to the
/// double description for each row. Where the addition of a row overflows, those of the next
/// generators are tried, up to six, and then the overflow of the first is told; the licence has no
/// trail.
pub fn all_facets<F: Field>(
    alloc: Global,
    form: &Data<F>,
    c: &[F],
    x: &[F],
    lines: u32,
) -> Result<AllFacets<F>, SolveFault>
    ghost task: { Task }
    requires stands { IsDataOf F.value task.file form.now }
    requires c { map F.value c.now ≡ task.c }
    requires fitting { IsFitting F.holds task }
    requires pointed { IsPointed task.file }
    requires choice { IsBaseChoice task.file (map F.value x.now) }
    ensures ok { IfOk result (λ found. AreFacetCuts F.value task found.cuts.items) }
    ensures left { IfErr result (λ fault. OnLicence fault (Licensed F.holds task.file task.c)) }
{
    let directions = spanning_rows(alloc, form)?;
    let least = form.p.len().saturating_sub(lines as usize);
    facets_over(alloc, form, c, x, &directions, least)
}
