//! What is found after some cuts and lines: one more cut, or one more line.
ghost use Rattle.std.specs.Prelude.{◌≡◌, ◌+◌, ◌<◌, false, [], List, map, length, reverse, All, IfOk, IfErr};
ghost use Rattle.overflows.specs.Preimages.{IsPreimageOf};
ghost use Rattle.lp_form.specs.declared.shown.Cut.{Cut as CutOf};
ghost use Rattle.deriv_log.specs.declared.entry.Entry.{Entry};
ghost use Rattle.overflows.specs.Base.{IsSide, trail_normals};
ghost use Rattle.overflows.specs.Licence.{Licensed};
ghost use Rattle.lp_form.specs.Data.{IsDataOf};
ghost use Rattle.outer_approx.specs.Cuts.{IsCutFor};
ghost use Rattle.outer_approx.specs.Lines.{RunsBothWays, told_by};
ghost use Rattle.outer_approx.specs.Task.{IsFitting, Task, setting};
ghost use Rattle.outer_approx.specs.declared.log.Line.{Line as LineOf};
ghost use Rattle.overflows.specs.Faults.{OnLicence, Overflows};
ghost use Rattle.recession.specs.Asking.{IsProper};
ghost use Rattle.recession.specs.Further.{AreFound, IsNext, IsNextSide, SayCuts, normals_of};

use crate::across::find_across;
use crate::asking::{Asked, ask};
use benson_program::Kept;
use deriv_log::Entries;
use exact_field::Field;
use lp_form::{Cut, Data, Preimage, negative};
use outer_approx::{Line, push_cut_entry};
use overflows::SolveFault;
use src_sink::{Items, NoMemory};
use std::alloc::Global;

/// What is found after some cuts and lines.
#[derive(Debug, Drop)]
pub enum Next<F: Drop> {
    /// One more cut, whose normal is independent of theirs.
    Cut(Cut<F>),
    /// One more line.
    Line(Line<F>),
}

/// What is found after cuts and lines at the negative of a direction `d` that has a pre-image.
fn ask_opposite<F: Field>(
    alloc: Global,
    form: &Data<F>,
    c: &[F],
    weights: &[F],
    d: Items<F>,
    forth: Preimage<F>,
    kept: &mut Kept<F>,
) -> Result<Next<F>, SolveFault>
    ghost task: { Task }
    requires stands { IsDataOf F.value task.file form.now }
    requires c { map F.value c.now ≡ task.c }
    requires weights { map F.value weights.now ≡ task.weights }
    requires fitting { IsFitting F.holds task }
    requires some { IsProper task }
    requires wide { length d ≡ task.file.objs }
    requires forth { IsPreimageOf F.value task.file task.c task.weights (map F.value d) false
        forth }
    ensures ok { (cuts : List (CutOf _)) (ls : List (LineOf _)) → All (RunsBothWays F.value task) ls
        → IsNextSide task.file.objs (normals_of F.value cuts) (map (told_by F.value) ls)
        (map F.value d)
        → IfOk result (IsNext F.value task cuts ls) }
    ensures left { (trail : List Entry)
        → IsSide task.file.objs (trail_normals task.file.objs trail) (map F.value d)
        → IfErr result (Overflows F.holds (setting task trail) []) }
{
    let negated = negative(alloc, d.as_slice())?;
    let asked = ask(alloc, form, c, weights, negated.as_slice(), false, kept)?;
    match asked {
        Asked::Cut(cut) => Ok(Next::Cut(cut)),
        Asked::Reached(back) => Ok(Next::Line(Line { d, forth, back })),
    }
}

/// What is found after cuts and lines, fewer than there are objectives. The lines stand in the
/// order in which they were found.
fn cut_or_line<F: Field>(
    alloc: Global,
    form: &Data<F>,
    c: &[F],
    weights: &[F],
    cuts: &[Cut<F>],
    lines: &[Line<F>],
    kept: &mut Kept<F>,
) -> Result<Next<F>, SolveFault>
    ghost task: { Task }
    requires stands { IsDataOf F.value task.file form.now }
    requires c { map F.value c.now ≡ task.c }
    requires weights { map F.value weights.now ≡ task.weights }
    requires fitting { IsFitting F.holds task }
    requires some { IsProper task }
    requires each { All (IsCutFor F.value task) cuts.now }
    requires found { AreFound F.value task (normals_of F.value cuts.now) (reverse lines.now) }
    requires few { length cuts.now + length lines.now < task.file.objs }
    ensures ok { IfOk result (IsNext F.value task cuts.now (reverse lines.now)) }
    ensures left { (trail : List Entry)
        → trail_normals task.file.objs trail ≡ normals_of F.value cuts.now
        → IfErr result (Overflows F.holds (setting task trail) []) }
{
    let d = find_across(alloc, form.p.len() as u32, cuts, lines)?;
    let asked = ask(alloc, form, c, weights, d.as_slice(), false, kept)?;
    match asked {
        Asked::Cut(cut) => Ok(Next::Cut(cut)),
        Asked::Reached(forth) => ask_opposite(alloc, form, c, weights, d, forth, kept),
    }
}

/// The entries of cuts, one each, in their order: with an overflow of an elimination of their
/// normals they are its trail.
pub fn entries_of<F: Field>(alloc: Global, cuts: &[Cut<F>]) -> Result<Entries, NoMemory>
    ensures { IfOk result (SayCuts F.value cuts.now) }
{
    let mut entries = Entries::new(alloc);
    for cut in cuts {
        push_cut_entry(alloc, &mut entries, cut)?;
    }
    Ok(entries)
}

/// What is found after cuts and lines, fewer than there are objectives. The lines stand in the
/// order in which they were found. Where an operation overflows, its trail has the cuts.
pub(crate) fn next_of<F: Field>(
    alloc: Global,
    form: &Data<F>,
    c: &[F],
    weights: &[F],
    cuts: &[Cut<F>],
    lines: &[Line<F>],
    kept: &mut Kept<F>,
) -> Result<Next<F>, SolveFault>
    ghost task: { Task }
    requires stands { IsDataOf F.value task.file form.now }
    requires c { map F.value c.now ≡ task.c }
    requires weights { map F.value weights.now ≡ task.weights }
    requires fitting { IsFitting F.holds task }
    requires some { IsProper task }
    requires each { All (IsCutFor F.value task) cuts.now }
    requires found { AreFound F.value task (normals_of F.value cuts.now) (reverse lines.now) }
    requires few { length cuts.now + length lines.now < task.file.objs }
    ensures ok { IfOk result (IsNext F.value task cuts.now (reverse lines.now)) }
    ensures left { IfErr result (λ fault. OnLicence fault (Licensed F.holds task.file task.c)) }
{
    match cut_or_line(alloc, form, c, weights, cuts, lines, kept) {
        Ok(next) => Ok(next),
        Err(fault) => {
            let entries = entries_of(alloc, cuts)?;
            Err(fault.with_trail(entries))
        }
    }
}
