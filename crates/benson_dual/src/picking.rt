//! The facets of an image in an order, of which the first ones have independent normals.
ghost use Rattle.std.specs.Prelude.{◌≡◌, ◌≤◌, ◌++◌, ◌∷◌, [], List, All, length, vec_len, IfErr, IfOk, OnOk};
ghost use Rattle.overflows.specs.Licence.{Licensed};
ghost use Rattle.lower_image.specs.Facets.{AreFacetCuts};
ghost use Rattle.lp_form.specs.declared.shown.Cut.{Cut as CutOf};
ghost use Rattle.outer_approx.specs.Cuts.{IsCutFor};
ghost use Rattle.outer_approx.specs.Task.{IsFitting, Task};
ghost use Rattle.overflows.specs.Faults.{OnLicence};
ghost use Rattle.recession.specs.First.{AreFirstCuts};
ghost use Rattle.recession.specs.Further.{normals_of};
ghost use Rattle.benson_dual.specs.Order.{IsOrder};
ghost use Rattle.benson_dual.specs.Picking.{ArePicked, IsCount};

use exact_field::Field;
use lp_form::Cut;
use outer_approx::Line;
use overflows::SolveFault;
use recession::{entries_of, level_vectors};
use src_sink::{Items, NoMemory};
use std::alloc::Global;

/// All facets of an image in an order.
#[derive(Debug, Drop)]
pub(crate) struct OrderedFacets<F: Drop> {
    /// First cuts of the image: with its lines as many as there are objectives.
    pub first: Vec<Cut<F>>,
    /// The facets that are not among these.
    pub others: Vec<Cut<F>>,
}

/// The same list once more.
fn copy_of_list<F: Field>(alloc: Global, list: &[F]) -> Result<Items<F>, NoMemory>
    ensures { IfOk result (λ out. out ≡ list.now) }
{
    let mut out = Items::new(alloc);
    out.append(list)?;
    Ok(out)
}

/// The same cut once more.
fn copy_of<F: Field>(alloc: Global, cut: &Cut<F>) -> Result<Cut<F>, NoMemory>
    ensures { IfOk result (λ out. out ≡ cut.now) }
{
    let w = copy_of_list(alloc, cut.w.as_slice())?;
    let u = copy_of_list(alloc, cut.u.as_slice())?;
    let v = copy_of_list(alloc, cut.v.as_slice())?;
    Ok(Cut {
        w,
        gamma: cut.gamma,
        u,
        v,
    })
}

fn push_last<F: Field>(list: &mut Vec<Cut<F>>, cut: Cut<F>) -> Result<(), NoMemory>
    ensures { OnOk result (list.new.items ≡ list.old.items ++ cut ∷ []) }
{
    list.push(cut)?;
    Ok(())
}

/// Whether the normals of cuts are independent: whether with the vectors at which they are 0 they
/// are as many as they have entries. Where an operation overflows, its trail has the cuts.
fn are_independent<F: Field>(alloc: Global, q: u32, cuts: &[Cut<F>]) -> Result<bool, SolveFault>
    ghost task: { Task }
    requires width { q ≡ task.file.objs }
    requires fitting { IsFitting F.holds task }
    requires each { All (IsCutFor F.value task) cuts.now }
    ensures ok { IfOk result (IsCount q (normals_of F.value cuts.now)) }
    ensures left { IfErr result (λ fault. OnLicence fault (Licensed F.holds task.file task.c)) }
{
    match level_vectors(alloc, q, cuts) {
        Ok(vectors) => Ok(cuts.len() + vectors.count() as usize == q as usize),
        Err(fault) => {
            let entries = entries_of(alloc, cuts)?;
            Err(fault.with_trail(entries))
        }
    }
}

impl<F: Field> OrderedFacets<F> {
    /// The last of the first facets becomes the last of the others.
    fn move_last(&mut self) -> Result<(), NoMemory>
        requires { 1 ≤ vec_len self.old.first }
        ensures { OnOk result ((last : CutOf _)
            × (self.old.first.items ≡ self.new.first.items ++ last ∷ [])
            × (self.new.others.items ≡ self.old.others.items ++ last ∷ [])) }
    {
        match self.first.pop() {
            None => unreachable!(),
            Some(last) => push_last(&mut self.others, last),
        }
    }

    /// Takes one more facet: as one of the first, where these are fewer than `most` and its normal
    /// is independent of theirs, and else as one of the others.
    fn take(&mut self, alloc: Global, q: u32, most: usize, cut: Cut<F>) -> Result<(), SolveFault>
        ghost task: { Task }
        requires width { q ≡ task.file.objs }
        requires fitting { IsFitting F.holds task }
        requires each { All (IsCutFor F.value task) self.old.first.items }
        requires cut { IsCutFor F.value task cut }
        ensures ok { (seen : List (CutOf _))
            → ArePicked F.value q most seen self.old.first.items self.old.others.items
            → OnOk result (ArePicked F.value q most (seen ++ cut ∷ [])
            self.new.first.items self.new.others.items) }
        ensures left { IfErr result (λ fault. OnLicence fault (Licensed F.holds task.file task.c)) }
    {
        if self.first.len() >= most {
            push_last(&mut self.others, cut)?;
            return Ok(());
        }
        push_last(&mut self.first, cut)?;
        if are_independent(alloc, q, &self.first)? {
            return Ok(());
        }
        Ok(self.move_last()?)
    }
}

/// All facets of an image in an order, which has their places from 0. The first ones are as many as
/// there are objectives, `q`, less the lines of the image, and their normals are independent
/// without the entries at the places of the lines: each is the first in the order that is
/// independent of those before it. So in an order that begins with the facets at a point they are
/// at this point. It costs an elimination of at most `q` normals for each facet up to the last of
/// the first ones.
pub(crate) fn facets_in_order<F: Field>(
    alloc: Global,
    q: u32,
    lines: &[Line<F>],
    cuts: &[Cut<F>],
    order: &[u32],
) -> Result<OrderedFacets<F>, SolveFault>
    ghost task: { Task }
    requires width { q ≡ task.file.objs }
    requires fitting { IsFitting F.holds task }
    requires facets { AreFacetCuts F.value task cuts.now }
    requires order { IsOrder (length cuts.now) order.now }
    ensures facets { IfOk result (λ out.
        AreFacetCuts F.value task (out.first.items ++ out.others.items)) }
    ensures first { (x : List _) (found : List (CutOf _))
        → AreFirstCuts F.value task x lines.now found
        → IfOk result (λ out. AreFirstCuts F.value task x lines.now out.first.items) }
    ensures left { IfErr result (λ fault. OnLicence fault (Licensed F.holds task.file task.c)) }
{
    let most = (q as usize).saturating_sub(lines.len());
    let mut facets = OrderedFacets {
        first: Vec::new(alloc),
        others: Vec::new(alloc),
    };
    for place in order {
        let cut = copy_of(alloc, &cuts[*place as usize])?;
        facets.take(alloc, q, most, cut)?;
    }
    Ok(facets)
}
