//! Cuts of an image of two objectives that has no line, in their order along the chain of its
//! facets. They are a guess: what they leave out the search finds.
//!
//! Along `c` the image ends at a convex function of one number, of which each cut is a line. Between
//! two cuts that are known it is asked where their lines meet, at a short number near by.
ghost use Rattle.std.specs.Prelude.{◌≡◌, ◌++◌, ◌∷◌, [], All, IfOk, IfSome, IsTrue, OnOk};
ghost use Rattle.lin_rows.specs.Complement.{AreComplement};
ghost use Rattle.outer_approx.specs.Cuts.{IsCutFor};
ghost use Rattle.outer_approx.specs.Task.{Task};
ghost use Rattle.recession.specs.Asking.{IsKnown};
ghost use Rattle.recession.specs.Further.{normals_of};
ghost use Rattle.benson_primal.specs.Chain.{IsChain};

use crate::nearby::round;
use exact_field::{Field, is_zero};
use lp_form::{Cut, Data};
use overflows::SolveFault;
use recession::{Asked, Kept, ask, level_vectors};
use src_sink::{Items, NoMemory};
use std::alloc::Global;

/// So many questions are asked at most.
const MOST_ASKED: u32 = 4096;

/// An entry of a list, and 0 beside it.
fn entry_of<F: Field>(list: &[F], place: usize) -> F {
    if place < list.len() {
        list[place]
    } else {
        F::zero()
    }
}

/// A whole number below `x`, if one is found. No clause speaks of it.
fn whole_below<F: Field>(x: F) -> Option<F> {
    F::of(x.num().checked_div(x.den())?.checked_sub(2)?, 1)
}

/// The line of a cut: its slope and its value at 0.
#[derive(Clone, Copy)]
struct Slope<F> {
    slope: F,
    start: F,
}

/// The line with short numbers near these.
fn short_line<F: Field>(line: Slope<F>) -> Option<Slope<F>> {
    Some(Slope {
        slope: round(line.slope)?,
        start: round(line.start)?,
    })
}

/// Where two lines meet, if they do and it is held.
fn meeting<F: Field>(left: Slope<F>, right: Slope<F>) -> Option<F> {
    let run = left.slope.sub(right.slope).ok()?;
    if is_zero(run) {
        return None;
    }
    left.start.sub(right.start).ok()?.div(run).ok()
}

/// A short number near the place where two lines meet, and one below both there.
fn below_meeting<F: Field>(left: Slope<F>, right: Slope<F>) -> Option<(F, F)> {
    let low = short_line(left)?;
    let at = match meeting(left, right) {
        Some(at) => round(at)?,
        None => round(meeting(low, short_line(right)?)?)?,
    };
    let fall = low.slope.mul(at).ok()?;
    Some((at, whole_below(low.start.sub(fall).ok()?)?))
}

fn push_last<F: Field>(list: &mut Vec<Cut<F>>, cut: Cut<F>) -> Result<(), NoMemory>
    ensures { OnOk result (list.new.items ≡ list.old.items ++ cut ∷ []) }
{
    list.push(cut)?;
    Ok(())
}

/// A search for the cuts along a chain.
#[derive(Drop)]
pub(crate) struct Chain<'a, F: Field> {
    pub(crate) alloc: Global,
    pub(crate) form: &'a Data<F>,
    /// The duality vector.
    pub(crate) c: &'a [F],
    /// The weights that combine the generators of the ordering cone to it.
    pub(crate) weights: &'a [F],
    /// What is kept of the last program.
    pub(crate) kept: Kept<F>,
    /// Cuts in their order, between which no other was found.
    pub(crate) found: Vec<Cut<F>>,
    /// Those after them, the next one last.
    pub(crate) waiting: Vec<Cut<F>>,
}

impl<'a, F: Field> Chain<'a, F> {
    /// Where the line of a cut along `c` is read off: at the first objective if `c` has the second.
    fn place(&self) -> usize {
        if is_zero(entry_of(self.c, 1)) { 1 } else { 0 }
    }

    /// The line of a cut.
    fn line(&self, cut: &Cut<F>) -> Slope<F> {
        Slope {
            slope: entry_of(cut.w.as_slice(), self.place()),
            start: cut.gamma,
        }
    }

    /// A cut that the point or direction with these two entries does not meet, if there is one. An
    /// overflow is dropped.
    fn cut_at(&mut self, x: F, y: F, t: bool) -> Result<Option<Cut<F>>, NoMemory>
        ghost task: { Task }
        requires { IsChain F.value F.holds task self.old }
        ensures chain { OnOk result (IsChain F.value F.holds task self.new) }
        ensures cut { IfOk result (λ r. IfSome r (IsCutFor F.value task)) }
    {
        let mut v = Items::new(self.alloc);
        v.push(x)?;
        v.push(y)?;
        match ask(
            self.alloc,
            self.form,
            self.c,
            self.weights,
            v.as_slice(),
            t,
            &mut self.kept,
        ) {
            Ok(Asked::Cut(cut)) => Ok(Some(cut)),
            Ok(Asked::Reached(_)) => Ok(None),
            Err(SolveFault::Left(_)) => Ok(None),
            Err(SolveFault::NoMemory) => Err(NoMemory),
        }
    }

    /// The point of the line along `c` through the place that is told, at this level of it.
    fn point_at(&self, at: F, level: F) -> Option<(F, F)> {
        let x = level.mul(entry_of(self.c, 0)).ok()?;
        let y = level.mul(entry_of(self.c, 1)).ok()?;
        if self.place() == 0 {
            Some((x.add(at).ok()?, y))
        } else {
            Some((x, y.add(at).ok()?))
        }
    }

    /// A short point below the place where the lines of two cuts meet, if one is found.
    fn point_between(&self, left: Slope<F>, right: Slope<F>) -> Option<(F, F)> {
        let (at, level) = below_meeting(left, right)?;
        self.point_at(at, level)
    }

    /// A cut that such a point does not meet.
    fn cut_between(&mut self, left: Slope<F>, right: Slope<F>) -> Result<Option<Cut<F>>, NoMemory>
        ghost task: { Task }
        requires { IsChain F.value F.holds task self.old }
        ensures chain { OnOk result (IsChain F.value F.holds task self.new) }
        ensures cut { IfOk result (λ r. IfSome r (IsCutFor F.value task)) }
    {
        match self.point_between(left, right) {
            None => Ok(None),
            Some((x, y)) => self.cut_at(x, y, true),
        }
    }

    fn push_found(&mut self, cut: Cut<F>) -> Result<(), NoMemory>
        ghost task: { Task }
        requires chain { IsChain F.value F.holds task self.old }
        requires cut { IsCutFor F.value task cut }
        ensures { OnOk result (IsChain F.value F.holds task self.new) }
    {
        push_last(&mut self.found, cut)?;
        Ok(())
    }

    fn push_waiting(&mut self, cut: Cut<F>) -> Result<(), NoMemory>
        ghost task: { Task }
        requires chain { IsChain F.value F.holds task self.old }
        requires cut { IsCutFor F.value task cut }
        ensures { OnOk result (IsChain F.value F.holds task self.new) }
    {
        push_last(&mut self.waiting, cut)?;
        Ok(())
    }

    /// The last of the found cuts, which is taken out.
    fn pop_found(&mut self) -> Option<Cut<F>>
        ghost task: { Task }
        requires { IsChain F.value F.holds task self.old }
        ensures chain { IsChain F.value F.holds task self.new }
        ensures cut { IfSome result (IsCutFor F.value task) }
    {
        self.found.pop()
    }

    /// The next of the others, which is taken out.
    fn pop_waiting(&mut self) -> Option<Cut<F>>
        ghost task: { Task }
        requires { IsChain F.value F.holds task self.old }
        ensures chain { IsChain F.value F.holds task self.new }
        ensures cut { IfSome result (IsCutFor F.value task) }
    {
        self.waiting.pop()
    }

    /// Two cuts, with none between them.
    fn settle(&mut self, left: Cut<F>, right: Cut<F>) -> Result<(), NoMemory>
        ghost task: { Task }
        requires chain { IsChain F.value F.holds task self.old }
        requires left { IsCutFor F.value task left }
        requires right { IsCutFor F.value task right }
        ensures { OnOk result (IsChain F.value F.holds task self.new) }
    {
        self.push_found(left)?;
        self.push_found(right)
    }

    /// Two cuts, of which one is found and the other waits.
    fn part(&mut self, left: Cut<F>, right: Cut<F>) -> Result<(), NoMemory>
        ghost task: { Task }
        requires chain { IsChain F.value F.holds task self.old }
        requires left { IsCutFor F.value task left }
        requires right { IsCutFor F.value task right }
        ensures { OnOk result (IsChain F.value F.holds task self.new) }
    {
        self.push_found(left)?;
        self.push_waiting(right)
    }

    /// Two cuts and one that was found between them: it is left out where it is one of the two or
    /// beside them, and takes the place of one that is parallel to it and says less.
    fn put(&mut self, left: Cut<F>, cut: Cut<F>, right: Cut<F>) -> Result<(), NoMemory>
        ghost task: { Task }
        requires chain { IsChain F.value F.holds task self.old }
        requires left { IsCutFor F.value task left }
        requires cut { IsCutFor F.value task cut }
        requires right { IsCutFor F.value task right }
        ensures { OnOk result (IsChain F.value F.holds task self.new) }
    {
        let low = self.line(&left);
        let at = self.line(&cut);
        let high = self.line(&right);
        if low.slope < at.slope && at.slope < high.slope {
            self.push_waiting(right)?;
            return self.part(left, cut);
        }
        if at.slope == low.slope && at.start > low.start {
            return self.part(cut, right);
        }
        if at.slope == high.slope && at.start > high.start {
            return self.part(left, cut);
        }
        self.settle(left, right)
    }

    /// Asks between two cuts. Of two that are parallel the one that says more is kept.
    fn ask_between(&mut self, left: Cut<F>, right: Cut<F>) -> Result<(), NoMemory>
        ghost task: { Task }
        requires chain { IsChain F.value F.holds task self.old }
        requires left { IsCutFor F.value task left }
        requires right { IsCutFor F.value task right }
        ensures { OnOk result (IsChain F.value F.holds task self.new) }
    {
        let low = self.line(&left);
        let high = self.line(&right);
        if low.slope == high.slope {
            return self.push_found(if low.start < high.start { right } else { left });
        }
        match self.cut_between(low, high)? {
            None => self.settle(left, right),
            Some(cut) => self.put(left, cut, right),
        }
    }

    /// Asks between the last found cut and the next that waits, and answers whether there is one.
    fn step(&mut self) -> Result<bool, NoMemory>
        ghost task: { Task }
        requires { IsChain F.value F.holds task self.old }
        ensures { OnOk result (IsChain F.value F.holds task self.new) }
    {
        let Some(right) = self.pop_waiting() else {
            return Ok(false);
        };
        match self.pop_found() {
            None => self.push_found(right)?,
            Some(left) => self.ask_between(left, right)?,
        }
        Ok(true)
    }

    /// Asks until no cut waits, or often enough.
    fn go_on(&mut self) -> Result<(), NoMemory>
        ghost task: { Task }
        requires { IsChain F.value F.holds task self.old }
        ensures { OnOk result (IsChain F.value F.holds task self.new) }
    {
        for _asked in 0..MOST_ASKED {
            if !self.step()? {
                return Ok(());
            }
        }
        Ok(())
    }

    /// Two cuts, in their order.
    fn part_in_order(&mut self, one: Cut<F>, other: Cut<F>) -> Result<(), NoMemory>
        ghost task: { Task }
        requires chain { IsChain F.value F.holds task self.old }
        requires one { IsCutFor F.value task one }
        requires other { IsCutFor F.value task other }
        ensures { OnOk result (IsChain F.value F.holds task self.new) }
    {
        if self.line(&one).slope < self.line(&other).slope {
            self.part(one, other)
        } else {
            self.part(other, one)
        }
    }

    /// Begins with a cut, and with those at both ends of the chain, which are asked at the two
    /// directions along it: where such a direction is one of the image, the cut itself is an end.
    fn begin(&mut self, first: Cut<F>) -> Result<(), NoMemory>
        ghost task: { Task }
        requires chain { IsChain F.value F.holds task self.old }
        requires first { IsCutFor F.value task first }
        ensures { OnOk result (IsChain F.value F.holds task self.new) }
    {
        let a = entry_of(first.w.as_slice(), 0);
        let b = entry_of(first.w.as_slice(), 1);
        let one = self.cut_at(b, a.neg(), false)?;
        let other = self.cut_at(b.neg(), a, false)?;
        match (one, other) {
            (Some(one), Some(other)) => {
                self.part_in_order(one, other)?;
                self.push_waiting(first)
            }
            (Some(end), None) => self.part_in_order(end, first),
            (None, Some(end)) => self.part_in_order(end, first),
            (None, None) => self.push_found(first),
        }
    }
}

/// The same list once more.
fn copy_of_list<F: Field>(alloc: Global, list: &[F]) -> Result<Items<F>, NoMemory>
    ensures { IfOk result (λ out. out ≡ list.now) }
{
    let mut out = Items::new(alloc);
    out.append(list)?;
    Ok(out)
}

/// The same cut once more.
fn copy_of<F: Field>(alloc: Global, cut: &Cut<F>) -> Result<Cut<F>, NoMemory>
    ensures { IfOk result (λ out. out ≡ cut.now) }
{
    let w = copy_of_list(alloc, cut.w.as_slice())?;
    let u = copy_of_list(alloc, cut.u.as_slice())?;
    let v = copy_of_list(alloc, cut.v.as_slice())?;
    Ok(Cut {
        w,
        gamma: cut.gamma,
        u,
        v,
    })
}

/// Cuts in their order along the chain of an image of two objectives, of which one is given.
pub(crate) fn chain_of<F: Field>(
    alloc: Global,
    form: &Data<F>,
    c: &[F],
    weights: &[F],
    first: &Cut<F>,
) -> Result<Vec<Cut<F>>, NoMemory>
    ghost task: { Task }
    requires known { IsKnown F.value F.holds task form.now c.now weights.now }
    requires two { task.file.objs ≡ 2 }
    requires first { IsCutFor F.value task first.now }
    ensures { IfOk result (λ cuts. All (IsCutFor F.value task) cuts.items) }
{
    let mut chain = Chain {
        alloc,
        form,
        c,
        weights,
        kept: Kept::new(alloc),
        found: Vec::new(alloc),
        waiting: Vec::new(alloc),
    };
    let first = copy_of(alloc, first)?;
    chain.begin(first)?;
    chain.go_on()?;
    let Chain { found, .. } = chain;
    Ok(found)
}

/// Whether the normals of cuts are seen to be independent, which have two entries: whether only 0
/// is across both.
pub(crate) fn are_independent<F: Field>(alloc: Global, cuts: &[Cut<F>]) -> Result<bool, NoMemory>
    ghost task: { Task }
    requires two { task.file.objs ≡ 2 }
    requires each { All (IsCutFor F.value task) cuts.now }
    ensures { IfOk result
        (λ yes. IsTrue yes → AreComplement 2 (normals_of F.value cuts.now) []) }
{
    match level_vectors(alloc, 2, cuts) {
        Ok(vectors) => Ok(vectors.count() == 0),
        Err(SolveFault::Left(_)) => Ok(false),
        Err(SolveFault::NoMemory) => Err(NoMemory),
    }
}
