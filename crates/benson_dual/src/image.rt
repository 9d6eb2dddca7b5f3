//! An image whose facets are known: all of them come into use, in an order that is free.
ghost use Rattle.std.specs.Prelude.{◌≡◌, ◌≤◌, ◌++◌, [], ℕ, All, IfErr, IfOk, IfSome, OnOk, length, map};
ghost use Rattle.benson_dual.specs.Images.{IsApproximation, IsImage, IsUnreached};
ghost use Rattle.benson_dual.specs.Order.{IsOrder};
ghost use Rattle.overflows.specs.Licence.{Licensed};
ghost use Rattle.log_rules.specs.Live.{lines, preimages};
ghost use Rattle.lower_image.specs.Facets.{AreFacetCuts};
ghost use Rattle.outer_approx.specs.Cuts.{IsCutFor, said_by};
ghost use Rattle.outer_approx.specs.Lines.{line_places, told_by};
ghost use Rattle.outer_approx.specs.Standing.{IsBegun, IsOpenTrail, IsOuter, cuts_of};
ghost use Rattle.outer_approx.specs.Task.{Task, setting};
ghost use Rattle.overflows.specs.Faults.{OnLicence, Overflows};
ghost use Rattle.recession.specs.First.{AreFirstCuts};

use crate::approximation::Approximation;
use crate::picking::facets_in_order;
use deriv_log::{Entries, Entry};
use double_descr::Dd;
use exact_field::Field;
use lp_form::{Cut, Data};
use outer_approx::{Line, open_trail, start_outer, take as take_cut};
use overflows::SolveFault;
use src_sink::{Items, NoMemory};
use std::alloc::Global;

/// What is known of an image whose facets come into use.
#[derive(Drop)]
pub(crate) struct Image<'a, F: Field> {
    pub(crate) alloc: Global,
    pub(crate) form: &'a Data<F>,
    /// The duality vector.
    pub(crate) c: &'a [F],
    /// What combines the generators of the ordering cone to it.
    pub(crate) weights: &'a [F],
    /// The entry of a log that tells both.
    pub(crate) opening: &'a Entry,
    /// A feasible point.
    pub(crate) x: &'a Items<F>,
    pub(crate) lines: &'a [Line<F>],
    /// For each objective whether it stands at the place of a line.
    pub(crate) places: Items<bool>,
}

/// Brings cuts into use one by one, in their order.
fn take_all<F: Field>(
    alloc: Global,
    places: &[bool],
    trail: &mut Entries,
    dd: &mut Dd<F>,
    cuts: &[Cut<F>],
) -> Result<(), SolveFault>
    ghost task: { Task }
    requires outer { IsOuter task trail.old dd.old }
    requires places { places.now ≡ line_places task trail.old }
    requires each { All (IsCutFor F.value task) cuts.now }
    ensures ok { OnOk result (IsOuter task trail.new dd.new) }
    ensures cuts { OnOk result (cuts_of task trail.new
        ≡ cuts_of task trail.old ++ map (said_by F.value) cuts.now) }
    ensures lines { lines trail.new ≡ lines trail.old }
    ensures preimages { OnOk result ((k : ℕ) → preimages trail.new k ≡ preimages trail.old k) }
    ensures trail { IsOpenTrail task trail.new }
    ensures left { IfErr result (Overflows F.holds (setting task trail.new) []) }
{
    for cut in cuts {
        take_cut(alloc, places, trail, dd, cut)?;
    }
    Ok(())
}

impl<'a, F: Field> Image<'a, F> {
    /// Brings the cuts of a trail into use, and then others one by one.
    fn bring(
        &self,
        trail: &mut Entries,
        first: &[Cut<F>],
        others: &[Cut<F>],
    ) -> Result<Dd<F>, SolveFault>
        ghost task: { Task }
        requires image { IsImage F.value F.holds task self.now }
        requires first { AreFirstCuts F.value task self.now.x.now self.now.lines.now first.now }
        requires others { All (IsCutFor F.value task) others.now }
        requires begun { IsBegun task (map (told_by F.value) self.now.lines.now)
            (map (said_by F.value) first.now) trail.old }
        ensures ok { IfOk result (IsOuter task trail.new) }
        ensures cuts { OnOk result (cuts_of task trail.new
            ≡ map (said_by F.value) (first.now ++ others.now)) }
        ensures lines { lines trail.new ≡ lines trail.old }
        ensures preimages { OnOk result ((k : ℕ) →
            preimages trail.new k ≡ preimages trail.old k) }
        ensures trail { IsOpenTrail task trail.new }
        ensures left { IfErr result (Overflows F.holds (setting task trail.new) []) }
    {
        let places = self.places.as_slice();
        let mut dd = start_outer(self.alloc, places, trail, first)?;
        take_all(self.alloc, places, trail, &mut dd, others)?;
        Ok(dd)
    }

    /// The log in which all facets come into use: first cuts of the image at once, and then the
    /// others one by one, in their order.
    fn approximation(
        &self,
        first: &[Cut<F>],
        others: &[Cut<F>],
    ) -> Result<Approximation<F>, SolveFault>
        ghost task: { Task }
        requires image { IsImage F.value F.holds task self.now }
        requires first { AreFirstCuts F.value task self.now.x.now self.now.lines.now first.now }
        requires facets { AreFacetCuts F.value task (first.now ++ others.now) }
        ensures ok { IfOk result (IsApproximation task self.now) }
        ensures unreached { IfOk result IsUnreached }
        ensures left { IfErr result (λ fault.
            OnLicence fault (Licensed F.holds task.file task.c)) }
    {
        let opening = self.opening.copy(self.alloc)?;
        let mut trail = open_trail(self.alloc, opening, self.x, self.lines, first)?;
        match self.bring(&mut trail, first, others) {
            Ok(dd) => Ok(Approximation { trail, dd }),
            Err(fault) => Err(fault.with_trail(trail)),
        }
    }

    /// The log in which all facets come into use in an order, which has their places from 0.
    fn in_order(&self, facets: &[Cut<F>], order: &[u32]) -> Result<Approximation<F>, SolveFault>
        ghost task: { Task }
        requires image { IsImage F.value F.holds task self.now }
        requires facets { AreFacetCuts F.value task facets.now }
        requires order { IsOrder (length facets.now) order.now }
        ensures ok { IfOk result (IsApproximation task self.now) }
        ensures unreached { IfOk result IsUnreached }
        ensures left { IfErr result (λ fault.
            OnLicence fault (Licensed F.holds task.file task.c)) }
    {
        let q = self.c.len() as u32;
        let facets = facets_in_order(self.alloc, q, self.lines, facets, order)?;
        self.approximation(facets.first.as_slice(), facets.others.as_slice())
    }

    /// The same, or none where an operation overflows.
    fn try_order(
        &self,
        facets: &[Cut<F>],
        order: &[u32],
    ) -> Result<Option<Approximation<F>>, NoMemory>
        ghost task: { Task }
        requires image { IsImage F.value F.holds task self.now }
        requires facets { AreFacetCuts F.value task facets.now }
        requires order { IsOrder (length facets.now) order.now }
        ensures ok { IfOk result (λ r. IfSome r (IsApproximation task self.now)) }
        ensures unreached { IfOk result (λ r. IfSome r IsUnreached) }
    {
        match self.in_order(facets, order) {
            Ok(approximation) => Ok(Some(approximation)),
            Err(SolveFault::Left(_)) => Ok(None),
            Err(SolveFault::NoMemory) => Err(NoMemory),
        }
    }

    /// The log in which all facets come into use in the first of these orders in which no operation
    /// overflows. If there is none the overflow of the last is told.
    pub(crate) fn in_first_order(
        &self,
        facets: &[Cut<F>],
        orders: &[Items<u32>],
    ) -> Result<Approximation<F>, SolveFault>
        ghost task: { Task }
        requires image { IsImage F.value F.holds task self.now }
        requires facets { AreFacetCuts F.value task facets.now }
        requires some { 1 ≤ length orders.now }
        requires orders { All (IsOrder (length facets.now)) orders.now }
        ensures ok { IfOk result (IsApproximation task self.now) }
        ensures unreached { IfOk result IsUnreached }
        ensures left { IfErr result (λ fault.
            OnLicence fault (Licensed F.holds task.file task.c)) }
    {
        let last = orders.len() - 1;
        for order in &orders[..last] {
            if let Some(found) = self.try_order(facets, order.as_slice())? {
                return Ok(found);
            }
        }
        self.in_order(facets, orders[last].as_slice())
    }
}
