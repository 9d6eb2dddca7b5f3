//! What stands of a solved log, entry by entry.
ghost use Rattle.std.specs.Prelude.{◌≡◌, ◌≤◌, ◌<◌, ◌*◌, ◌&&◌, ◌==◌, ⊤, ℕ, nat_le, not, Option, None, Some, List, [], ◌∷◌, ◌++◌, All, AllPairs, IfOk, OnOk, MatchOption, IsTrue, IsSome, IfErr, length, map, option_copied};
ghost use Rattle.std.specs.List.{list_all};
ghost use Rattle.exact_field.specs.Rational.{ℚ, zero_ℚ, one_ℚ};
ghost use Rattle.frac128.specs.Held.{is_held};
ghost use Rattle.frac128.specs.Sparse.{IsSparse};
ghost use Rattle.frac128.specs.declared.vectors.Spot.{Spot};
ghost use Rattle.deriv_log.specs.declared.entry.Entry.{Entry};
ghost use Rattle.deriv_log.specs.declared.entry.Entry.TheVariants as entry;
ghost use Rattle.word_lines.specs.declared.part.EndKind.TheVariants as end;
ghost use Rattle.vlp_problem.specs.Sides.{numbers_from};
ghost use Rattle.vlp_problem.specs.declared.problem.Problem.{Problem};
ghost use Rattle.log_rules.specs.AnswerEvents.{end_events, facet_events, is_accounted, is_largest, is_taken};
ghost use Rattle.log_rules.specs.Live.{contains, cut_row, lines as lines_of, named, preimages, state};
ghost use Rattle.log_rules.specs.LiveEvents.{start_events};
ghost use Rattle.log_rules.specs.Meets.{Meets};
ghost use Rattle.log_rules.specs.Order as order;
ghost use Rattle.log_rules.specs.declared.stop.Stop.TheVariants as stopped;
ghost use Rattle.vlp_matrices.specs.Matrices.{AreMatricesOf};
ghost use Rattle.log_live.specs.Live.{IsOpenAt, live_of};
ghost use Rattle.log_live.specs.Tight.{AreTight, is_accounted_at};
ghost use Rattle.log_live.specs.declared.generator.Generator.{Generator};
ghost use Rattle.log_solved.specs.Places.{place_of};
ghost use Rattle.log_solved.specs.Shown.{entry_of, kind_of, preimage_events};
ghost use Rattle.log_solved.specs.Solving.{Enters, IsSolving, PassesAdd, StandsBefore, adding_events, hints_of};
ghost use Rattle.log_solved.specs.Uses.{AreUses};

use crate::shown::{GenKind, t_of, test_preimage};
use crate::uses::Uses;
use deriv_log::LogPair;
use entry_checks::{Cut, SharedVector, check_start, pass};
use frac128::{Frac, Spot, Vector};
use log_live::{Live, TightSets};
use log_rules::{Rule, Stop};
use src_sink::{Items, MOST_ITEMS, NoMemory};
use std::alloc::Global;
use vlp_matrices::Matrices;
use vlp_problem::Problem;

/// What stands of a solved log after some of its entries. After an error of a call that changes it
/// the value is of no use: the check of the log has ended.
#[derive(Debug, Drop)]
pub struct Solving {
    /// The cuts: number k stands at place k - 1.
    pub cuts: Vec<Cut>,
    pub uses: Uses,
    pub live: Live,
    /// The numbers of the cuts that are named as facets, in their order.
    pub named: Items<u32>,
    /// Their places among the rows in use.
    pub facets: Items<u32>,
    /// The sets of tight generators by rows, from the first entry on that compares them. After it
    /// no row comes into use.
    pub sets: Option<TightSets>,
}

fn copy_list<T: Copy + Drop>(alloc: Global, items: &[T]) -> Result<Items<T>, NoMemory>
    ensures { IfOk result (λ copy. copy ≡ items.now) }
{
    let mut copy = Items::new(alloc);
    copy.append(items)?;
    Ok(copy)
}

/// Whether the numbers have this one. It costs their count.
fn has_number(numbers: &[u32], k: u32) -> bool
    ensures { result ≡ contains numbers.now k }
{
    numbers.iter().any(|j| *j == k)
}

/// Whether each of so many cuts in use, by their places from 1 on, is accounted for by a facet.
fn are_accounted(sets: &TightSets, facets: &[u32], count: u32) -> bool
    requires rows { count < length sets.now.sets }
    requires facets { All (λ place. place < length sets.now.sets) facets.now }
    ensures { (rows : List (List ℚ)) (gens : List Generator) → AreTight rows gens sets.now.sets
        → result
        ≡ list_all (is_accounted_at rows (live_of gens) facets.now) (numbers_from 1 count) }
{
    for i in 0..count {
        if !sets.is_accounted(facets, i + 1) {
            return false;
        }
    }
    true
}

impl Solving {
    /// Where there is no entry.
    pub fn new(alloc: Global) -> Solving
        ensures { (file : Problem) → IsSolving file [] result }
    {
        Solving {
            cuts: Vec::new(alloc),
            uses: Uses::new(alloc),
            live: Live::new(alloc),
            named: Items::new(alloc),
            facets: Items::new(alloc),
            sets: None,
        }
    }

    /// Keeps the cut of a `cut` entry.
    pub fn keep_cut(
        &mut self,
        alloc: Global,
        w: &[Frac],
        gamma: Frac,
        u: &SharedVector,
    ) -> Result<(), NoMemory>
        ensures { (file : Problem) (before : List Entry) (v : List Spot)
            → IsSolving file before self.old
            → OnOk result (IsSolving file (before ++ entry.Cut w.now gamma u.now v ∷ []) self.new) }
    {
        let cut = Cut {
            w: copy_list(alloc, w)?,
            gamma,
            u: u.again()?,
        };
        self.cuts.push(cut)?;
        self.uses.grow()?;
        Ok(())
    }

    /// Begins with the named cuts and the first generators.
    fn begin(
        &mut self,
        alloc: Global,
        objs: u32,
        named: &[u32],
        point: &[Frac],
        directions: &[Frac],
    ) -> Result<(), NoMemory>
        requires few { objs ≤ 100000 }
        requires many { length named.now ≤ 100000 }
        requires entries { length directions.now ≡ length named.now * objs }
        requires within { All (λ k. (1 ≤ k) × (k ≤ length self.old.cuts.items)) named.now }
        requires rise { AllPairs (λ k j. k < j) named.now }
        ensures { (file : Problem) (before : List Entry) → file.objs ≡ objs
            → StandsBefore file before order.start self.old
            → Meets file before (entry.Start named.now point.now directions.now)
            → OnOk result (IsSolving file
            (before ++ entry.Start named.now point.now directions.now ∷ []) self.new) }
    {
        self.uses = Uses::of(alloc, self.cuts.len(), named)?;
        self.live = Live::start(alloc, objs, named.len() as u32, point, directions)?;
        self.sets = None;
        Ok(())
    }

    /// The events of a `start` entry after these lines.
    pub fn start(
        &mut self,
        alloc: Global,
        problem: &Problem,
        lines: &[Vector],
        named: &[u32],
        point: &[Frac],
        directions: &[Frac],
    ) -> Result<(), Stop>
        requires { (before : List Entry)
            × (StandsBefore problem.now before order.start self.old
            × (lines.now ≡ lines_of before)) }
        ensures { (before : List Entry) → StandsBefore problem.now before order.start self.old
            → lines.now ≡ lines_of before
            → Enters problem.now before (entry.Start named.now point.now directions.now)
            (start_events problem.now lines.now (state problem.now.objs before) named.now point.now
            directions.now) self.new result }
    {
        check_start(
            problem,
            self.cuts.as_slice(),
            lines,
            named,
            point,
            directions,
        )?;
        match self.begin(alloc, problem.objs, named, point, directions) {
            Ok(()) => Ok(()),
            Err(NoMemory) => Err(Stop::NoMemory),
        }
    }

    /// Whether there is a cut of this number.
    fn is_cut(&self, cut: u32) -> bool
        ensures { result ≡ (nat_le 1 cut && nat_le cut (length self.now.cuts.items)) }
    {
        1 <= cut && cut as usize <= self.cuts.len()
    }

    /// Whether the cut is there and not in use.
    fn is_unused(&self, cut: u32) -> bool
        ensures { (used : List ℕ) → AreUses (length self.now.cuts.items) used self.now.uses
            → result
            ≡ (nat_le 1 cut && nat_le cut (length self.now.cuts.items)
            && not (contains used cut)) }
    {
        self.is_cut(cut) && self.uses.place(cut) == 0
    }

    /// The events of an `add` entry or, with hints, of an `addh` entry. What stands after either is
    /// what stands after an `add` of its pairs.
    pub fn add(
        &mut self,
        alloc: Global,
        cut: u32,
        pairs: &[LogPair],
        hints: Option<&[u32]>,
    ) -> Result<(), Stop>
        requires { (file : Problem)
            × ((before : List Entry) × StandsBefore file before order.add self.old) }
        ensures { (file : Problem) (before : List Entry)
            → StandsBefore file before order.add self.old
            → Enters file before (entry.Add cut pairs.now)
            (adding_events file (state file.objs before) cut pairs.now (option_copied hints.entry))
            self.new result }
    {
        pass(Rule::Index, self.is_unused(cut))?;
        let row = &self.cuts[cut as usize - 1];
        self.live
            .add(alloc, row.w.as_slice(), row.gamma, pairs, hints)?;
        self.sets = None;
        match self.uses.bring(cut) {
            Ok(()) => Ok(()),
            Err(NoMemory) => Err(Stop::NoMemory),
        }
    }

    /// The least hints of an `add` entry that passes: for each opposite pair that it does not list,
    /// in their order, the least generator that covers it. They cost the opposite pairs times the
    /// generators in front of those.
    pub fn least_hints(
        &self,
        alloc: Global,
        cut: u32,
        pairs: &[LogPair],
    ) -> Result<Items<u32>, NoMemory>
        requires { (file : Problem) × (before : List Entry)
            × PassesAdd file before cut pairs.now self.now }
        ensures { (file : Problem) (before : List Entry)
            → PassesAdd file before cut pairs.now self.now
            → IfOk result (λ hints. hints ≡ hints_of file before cut pairs.now) }
    {
        let row = &self.cuts[cut as usize - 1];
        self.live
            .least_hints(alloc, row.w.as_slice(), row.gamma, pairs)
    }

    /// Gives the generator at a place its pre-image.
    fn give(&mut self, place: usize, x: &SharedVector) -> Result<(), Stop>
        requires { place < length self.old.live.generators.items }
        ensures point { (file : Problem) (before : List Entry) (k : ℕ) (m : List Spot)
            → StandsBefore file before order.point self.old
            → IsOpenAt file.objs before (state file.objs before) k one_ℚ self.old.live place
            → OnOk result (IsSolving file (before ++ entry.Point k x.now m ∷ []) self.new) }
        ensures ray { (file : Problem) (before : List Entry) (k : ℕ) (m : List Spot)
            → StandsBefore file before order.ray self.old
            → IsOpenAt file.objs before (state file.objs before) k zero_ℚ self.old.live place
            → OnOk result (IsSolving file (before ++ entry.Ray k x.now m ∷ []) self.new) }
        ensures memory { IfErr result (λ stop. stop ≡ stopped.NoMemory) }
    {
        match x.again() {
            Ok(x) => {
                self.live.set_preimage(place, x);
                Ok(())
            }
            Err(NoMemory) => Err(Stop::NoMemory),
        }
    }

    /// The events of a `point` entry: they cost those of its pre-image, and the logarithm of the
    /// number of generators.
    pub fn certify(
        &mut self,
        alloc: Global,
        problem: &Problem,
        matrices: &Matrices,
        kind: GenKind,
        number: u32,
        x: &SharedVector,
        m: &[Spot],
    ) -> Result<(), Stop>
        requires matrices { AreMatricesOf problem.now matrices.now }
        requires preimage { IsSparse x.now }
        requires multipliers { IsSparse m.now }
        requires standing { (before : List Entry)
            × StandsBefore problem.now before (kind_of kind) self.old }
        ensures { (before : List Entry) → StandsBefore problem.now before (kind_of kind) self.old
            → Enters problem.now before (entry_of kind number x.now m.now)
            (preimage_events kind problem.now before (state problem.now.objs before) number x.now
            m.now) self.new result }
    {
        match self.live.place_open(number, t_of(kind)) {
            Some(place) => {
                let vector = self.live.generators[place].vector.as_slice();
                let y = &vector[..problem.objs as usize];
                let places = x.as_slice();
                test_preimage(alloc, problem, matrices, kind, y, places, m)?;
                self.give(place, x)
            }
            None => Err(Stop::Wrong(Rule::Index)),
        }
    }

    /// Makes the sets of tight generators by rows, where they are not made yet.
    fn compare(&mut self, alloc: Global) -> Result<(), NoMemory>
        ensures { (file : Problem) (before : List Entry) → IsSolving file before self.old
            → OnOk result (IsSolving file before self.new × IsSome self.new.sets) }
    {
        if self.sets.is_some() {
            return Ok(());
        }
        let generators = self.live.generators.as_slice();
        if generators.len() > MOST_ITEMS {
            return Err(NoMemory);
        }
        let rows = self.uses.list.len() as u32 + 1;
        self.sets = Some(TightSets::of(alloc, rows, generators)?);
        Ok(())
    }

    /// Whether the cut is in use and not named.
    fn is_unnamed(&self, cut: u32) -> bool
        ensures { (file : Problem) (before : List Entry) → IsSolving file before self.now
            → result
            ≡ (contains (state file.objs before).used cut
            && not (contains (named before) cut)) }
    {
        self.uses.place(cut) != 0 && !has_number(self.named.as_slice(), cut)
    }

    /// Whether the cut at this place among the rows in use has a largest set of tight generators,
    /// which is that of no facet.
    fn is_facet(&self, place: u32) -> bool
        requires standing { (file : Problem)
            × ((before : List Entry)
            × ((cut : ℕ)
            × (IsSolving file before self.now
            × IsTrue (contains (state file.objs before).used cut)
            × (place ≡ place_of (state file.objs before).used cut)))) }
        requires made { IsSome self.now.sets }
        ensures { (file : Problem) (before : List Entry) (cut : ℕ) → IsSolving file before self.now
            → IsTrue (contains (state file.objs before).used cut)
            → place ≡ place_of (state file.objs before).used cut
            → result
            ≡ (is_largest file.objs (state file.objs before)
            (cut_row (state file.objs before) cut)
            && not (is_taken (state file.objs before) (named before)
            (cut_row (state file.objs before) cut))) }
    {
        match &self.sets {
            Some(sets) => sets.is_largest(place) && !sets.is_taken(self.facets.as_slice(), place),
            None => unreachable!(),
        }
    }

    /// Whether each cut in use is accounted for.
    fn is_accounted(&self) -> bool
        requires standing { (file : Problem)
            × ((before : List Entry) × IsSolving file before self.now) }
        requires made { IsSome self.now.sets }
        ensures { (file : Problem) (before : List Entry) → IsSolving file before self.now
            → result
            ≡ list_all (λ k. is_accounted file.objs (state file.objs before) (named before)
            (cut_row (state file.objs before) k)) (state file.objs before).used }
    {
        match &self.sets {
            Some(sets) => are_accounted(sets, self.facets.as_slice(), self.uses.list.len() as u32),
            None => unreachable!(),
        }
    }

    /// Lists a facet, whose row has this place.
    fn list_facet(&mut self, cut: u32, place: u32) -> Result<(), NoMemory>
        ensures { (file : Problem) (before : List Entry) → IsSolving file before self.old
            → IsTrue (contains (state file.objs before).used cut)
            → place ≡ place_of (state file.objs before).used cut
            → OnOk result (IsSolving file (before ++ entry.Facet cut ∷ []) self.new) }
    {
        self.named.push(cut)?;
        self.facets.push(place)?;
        Ok(())
    }

    /// The events of a `facet` entry. It costs the rows in use and the facets, each times the words
    /// of a set of generators; the first one, and else the end, costs the rows times the
    /// generators.
    pub fn name_facet(&mut self, alloc: Global, cut: u32) -> Result<(), Stop>
        requires { (file : Problem)
            × ((before : List Entry) × StandsBefore file before order.facet self.old) }
        ensures { (file : Problem) (before : List Entry)
            → StandsBefore file before order.facet self.old
            → Enters file before (entry.Facet cut)
            (facet_events file before (state file.objs before) cut) self.new result }
    {
        pass(Rule::Index, self.is_unnamed(cut))?;
        if let Err(NoMemory) = self.compare(alloc) {
            return Err(Stop::NoMemory);
        }
        let place = self.uses.place(cut);
        pass(Rule::Facet, self.is_facet(place))?;
        match self.list_facet(cut, place) {
            Ok(()) => Ok(()),
            Err(NoMemory) => Err(Stop::NoMemory),
        }
    }

    /// Whether there was a `start`, and each live generator has a pre-image.
    fn is_reached(&self, started: bool) -> bool
        ensures { (file : Problem) (before : List Entry) → IsSolving file before self.now
            → started ≡ order.has order.start before
            → result
            ≡ (order.has order.start before
            && list_all (λ g. not (length (preimages before g.number) == 0))
            (state file.objs before).list.live) }
    {
        started && self.live.are_reached()
    }

    /// The events of an `end solved` entry. It costs the rows in use times the facets times the
    /// words of a set of generators, and the generators.
    pub fn end(&mut self, alloc: Global, started: bool) -> Result<(), Stop>
        requires { (file : Problem) × ((before : List Entry) × IsSolving file before self.old) }
        ensures { (file : Problem) (before : List Entry) → IsSolving file before self.old
            → started ≡ order.has order.start before
            → Enters file before (entry.End end.Solved)
            (end_events file before (state file.objs before) end.Solved) self.new result }
    {
        if !self.is_reached(started) {
            return Err(Stop::Wrong(Rule::Missing));
        }
        if let Err(NoMemory) = self.compare(alloc) {
            return Err(Stop::NoMemory);
        }
        pass(Rule::Missing, self.is_accounted())
    }
}
