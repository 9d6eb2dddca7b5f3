//! The end of the log of an image, after its named facets.
ghost use Rattle.std.specs.Prelude.{◌≡◌, ◌≢◌, ◌++◌, [], All, map, OnOk};
ghost use Rattle.deriv_log.specs.declared.entry.Entry.TheVariants as entry_of;
ghost use Rattle.log_rules.specs.Live.{preimages};
ghost use Rattle.outer_approx.specs.Standing.{IsEnded, IsOuter, cuts_of};
ghost use Rattle.outer_approx.specs.Task.{Task};

use deriv_log::{EndKind, Entries, Entry};
use double_descr::Dd;
use exact_field::Field;
use geo_duality::facets_of;
use overflows::naturals_are_written;
use src_sink::NoMemory;
use std::alloc::Global;

/// Appends the entries that name these cuts as facets.
fn push_facets(trail: &mut Entries, facets: &[u32]) -> Result<(), NoMemory>
    ensures { OnOk result (trail.new ≡ trail.old ++ map (λ k. entry_of.Facet k) facets.now) }
{
    for cut in facets {
        trail.push(Entry::Facet { cut: *cut })?;
    }
    Ok(())
}

/// Names the facets of an outer approximation all of whose live generators have pre-images, and
/// ends its log.
pub fn end_solved<F: Field>(alloc: Global, trail: &mut Entries, dd: &Dd<F>) -> Result<(), NoMemory>
    ghost task: { Task }
    requires outer { IsOuter task trail.old dd.now }
    requires reached { All (λ g. preimages trail.old g.number ≢ []) dd.now.list.live }
    ensures ended { OnOk result (IsEnded task trail.new) }
    ensures cuts { OnOk result (cuts_of task trail.new ≡ cuts_of task trail.old) }
{
    let facets = facets_of(alloc, dd)?;
    naturals_are_written(facets.as_slice());
    push_facets(trail, facets.as_slice())?;
    trail.push(Entry::End(EndKind::Solved))
}
