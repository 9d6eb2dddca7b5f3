//! The search for cuts: each live generator is asked for a cut that it violates, until all have a
//! pre-image.
ghost use Rattle.std.specs.Prelude.{◌≡◌, ◌≢◌, ◌≤◌, ◌||◌, [], ℕ, List, All, false, IfErr, IfNone, IfOk, IfSome, IsTrue, OnOk, length, map, nat_eq, Contains};
ghost use Rattle.incid_sets.specs.Marks.{has};
ghost use Rattle.log_rules.specs.Live.{preimages};
ghost use Rattle.polyhedra.specs.LiveList.{numbers};
ghost use Rattle.outer_approx.specs.Cuts.{IsCutFor};
ghost use Rattle.outer_approx.specs.LiveVectors.{IsLiveVector};
ghost use Rattle.outer_approx.specs.Standing.{IsOpenTrail};
ghost use Rattle.outer_approx.specs.Task.{Task};
ghost use Rattle.exact_field.specs.Rational.{ℚ};
ghost use Rattle.lineality.specs.Without.{with_zeros};
ghost use Rattle.benson_primal.specs.Search.{AreDirectionsReached, AreReached, HasGrown, HasSameRows, IsDone, IsFound, IsInScope, IsNextCut, IsRound, IsSearching, Stopped};

use crate::nearby::{is_point, vector_nearby, violates};
use deriv_log::Entries;
use double_descr::Dd;
use exact_field::Field;
use incid_sets::Marks;
use lineality::line_places::full_vector;
use lp_form::{Cut, Data};
use outer_approx::{push_preimage, take, try_take};
use overflows::SolveFault;
use recession::{Asked, Kept, ask};
use src_sink::{Items, NoMemory};
use std::alloc::Global;

/// Which live generators are asked.
#[derive(Clone, Copy)]
pub(crate) enum Scope {
    /// Those with last entry 0.
    Directions,
    /// Those and the points.
    Both,
}

/// Whether a generator is left out.
fn is_left_out<F: Field>(scope: Scope, generator: &[F]) -> bool
    requires { 1 ≤ length generator.now }
    ensures { IsTrue result → IsInScope scope (map F.value generator.now) → ⊥ }
{
    match scope {
        Scope::Directions => is_point(generator),
        Scope::Both => false,
    }
}

/// Gives the set one more number, whatever its bound.
fn mark(reached: &mut Marks, g: u32) -> Result<(), NoMemory>
    ensures { OnOk result ((k : ℕ) → has reached.new k ≡ (nat_eq k g || has reached.old k)) }
{
    match g.checked_add(1) {
        None => Err(NoMemory),
        Some(bound) => {
            reached.grow(bound)?;
            reached.insert(g);
            Ok(())
        }
    }
}

/// A cut that a live generator violates.
#[derive(Drop)]
pub(crate) struct Found<F: Drop> {
    pub(crate) generator: u32,
    /// Whether it was asked at a vector near the generator, and not at the generator itself.
    pub(crate) is_near: bool,
    pub(crate) cut: Cut<F>,
}

/// How a round over the live generators ends.
#[derive(Drop)]
pub(crate) enum Round<F: Drop> {
    /// A cut came into use.
    Grown,
    /// No cut came into use, since each addition that was tried overflows: this is the first cut
    /// of these.
    Overflowed(Found<F>),
    /// All that are asked have pre-images.
    Reached,
}

/// So many failed additions there may be for each row in use.
const MOST_FAILED: u32 = 3;

/// The state of a search. After want of memory it is of no use.
#[derive(Drop)]
pub(crate) struct Search<'a, F: Field> {
    pub(crate) alloc: Global,
    pub(crate) form: &'a Data<F>,
    /// The duality vector.
    pub(crate) c: &'a [F],
    /// What combines the generators of the ordering cone to it.
    pub(crate) weights: &'a [F],
    /// For each objective whether it stands at the place of a line.
    pub(crate) places: Items<bool>,
    pub(crate) trail: Entries,
    /// The rows and generators, without their entries at the places of lines.
    pub(crate) dd: Dd<F>,
    /// The numbers of the generators that have a pre-image.
    pub(crate) reached: Marks,
    /// What is kept of the last program.
    pub(crate) kept: Kept<F>,
    /// How many additions were tried that overflow.
    pub(crate) failed: u32,
}

impl<'a, F: Field> Search<'a, F> {
    /// The log so far.
    pub(crate) fn into_trail(self) -> Entries
        ensures { result ≡ self.entry.trail }
    {
        self.trail
    }

    /// The live generator `g`, with zeros at the places of lines.
    fn vector(&self, g: u32) -> Result<Items<F>, NoMemory>
        ghost task: { Task }
        requires searching { IsSearching F.value F.holds task self.now }
        requires listed { Contains (numbers self.now.dd.list.live) g }
        ensures live { IfOk result (λ full. IsLiveVector task self.now.trail g (map F.value full)) }
        ensures only { IfOk result (λ full. (v : List ℚ) →
            Contains self.now.dd.list.live (record { number = g; vector = v }) →
            map F.value full ≡ with_zeros self.now.places v) }
    {
        full_vector(self.alloc, self.places.as_slice(), self.dd.generator(g))
    }

    /// Asks at the vector of the live generator `g`, which has no pre-image yet: a cut that it
    /// violates, or none, and then its pre-image stands in the log.
    fn ask_at(&mut self, g: u32, full: &[F]) -> Result<Option<Cut<F>>, SolveFault>
        ghost task: { Task }
        requires searching { IsSearching F.value F.holds task self.old }
        requires live { IsLiveVector task self.old.trail g (map F.value full.now) }
        requires fresh { preimages self.old.trail g ≡ [] }
        ensures searching { OnOk result (IsSearching F.value F.holds task self.new) }
        ensures rows { HasSameRows task self.old self.new }
        ensures cut { IfOk result (λ r. IfSome r (IsNextCut F.value task self.new.trail)) }
        ensures reached { IfOk result (λ r. IfNone r (preimages self.new.trail g ≢ [])) }
        ensures stay { OnOk result ((k : ℕ) →
            preimages self.old.trail k ≢ [] → preimages self.new.trail k ≢ []) }
        ensures stopped { IfErr result (Stopped F.holds task self.new) }
    {
        let t = is_point(full);
        let v = &full[..self.c.len()];
        match ask(
            self.alloc,
            self.form,
            self.c,
            self.weights,
            v,
            t,
            &mut self.kept,
        )? {
            Asked::Cut(cut) => Ok(Some(cut)),
            Asked::Reached(parts) => {
                push_preimage(self.alloc, &mut self.trail, g, t, &parts)?;
                mark(&mut self.reached, g)?;
                Ok(None)
            }
        }
    }

    /// Asks at the live generator `g`, which has no pre-image yet: a cut that it violates, or
    /// none, and then its pre-image stands in the log.
    fn own_cut(&mut self, g: u32) -> Result<Option<Cut<F>>, SolveFault>
        ghost task: { Task }
        requires searching { IsSearching F.value F.holds task self.old }
        requires listed { Contains (numbers self.old.dd.list.live) g }
        requires fresh { preimages self.old.trail g ≡ [] }
        ensures searching { OnOk result (IsSearching F.value F.holds task self.new) }
        ensures rows { HasSameRows task self.old self.new }
        ensures cut { IfOk result (λ r. IfSome r (IsNextCut F.value task self.new.trail)) }
        ensures reached { IfOk result (λ r. IfNone r (preimages self.new.trail g ≢ [])) }
        ensures stay { OnOk result ((k : ℕ) →
            preimages self.old.trail k ≢ [] → preimages self.new.trail k ≢ []) }
        ensures stopped { IfErr result (Stopped F.holds task self.new) }
    {
        let full = self.vector(g)?;
        self.ask_at(g, full.as_slice())
    }

    /// A cut that the live generator `g` violates, asked near its vector.
    fn ask_near(&mut self, g: u32, full: &[F]) -> Result<Option<Cut<F>>, NoMemory>
        ghost task: { Task }
        requires searching { IsSearching F.value F.holds task self.old }
        requires listed { Contains (numbers self.old.dd.list.live) g }
        requires live { IsLiveVector task self.old.trail g (map F.value full.now) }
        requires only { (v : List ℚ) →
            Contains self.old.dd.list.live (record { number = g; vector = v }) →
            map F.value full.now ≡ with_zeros self.old.places v }
        ensures searching { IsSearching F.value F.holds task self.new }
        ensures trail { self.new.trail ≡ self.old.trail }
        ensures rows { HasSameRows task self.old self.new }
        ensures cut { IfOk result (λ r. IfSome r (IsNextCut F.value task self.new.trail)) }
    {
        let Some(near) = vector_nearby(self.alloc, &full[..self.c.len()])? else {
            return Ok(None);
        };
        let t = is_point(full);
        let near = near.as_slice();
        match ask(
            self.alloc,
            self.form,
            self.c,
            self.weights,
            near,
            t,
            &mut self.kept,
        ) {
            Ok(Asked::Cut(cut)) => {
                let places = self.places.as_slice();
                let short = self.dd.generator(g);
                if violates(self.alloc, places, short, &cut)? {
                    Ok(Some(cut))
                } else {
                    Ok(None)
                }
            }
            Ok(Asked::Reached(_)) => Ok(None),
            Err(SolveFault::Left(_)) => Ok(None),
            Err(SolveFault::NoMemory) => Err(NoMemory),
        }
    }

    /// A cut that the live generator `g` violates, asked at a vector with short entries near by,
    /// if `g` has long ones and there is such a cut: each cut of Benson's program is valid,
    /// whoever asked for it. An overflow is dropped there, as no licence names such a vector.
    fn near_cut(&mut self, g: u32) -> Result<Option<Cut<F>>, NoMemory>
        ghost task: { Task }
        requires searching { IsSearching F.value F.holds task self.old }
        requires listed { Contains (numbers self.old.dd.list.live) g }
        ensures searching { IsSearching F.value F.holds task self.new }
        ensures trail { self.new.trail ≡ self.old.trail }
        ensures rows { HasSameRows task self.old self.new }
        ensures cut { IfOk result (λ r. IfSome r (IsNextCut F.value task self.new.trail)) }
    {
        let full = self.vector(g)?;
        self.ask_near(g, full.as_slice())
    }

    /// A cut that the live generator `g` violates, or none, and then it is not asked or has a
    /// pre-image. One with long entries is asked at a vector near by first.
    fn reach(&mut self, scope: Scope, g: u32) -> Result<Option<Found<F>>, SolveFault>
        ghost task: { Task }
        requires searching { IsSearching F.value F.holds task self.old }
        requires listed { Contains (numbers self.old.dd.list.live) g }
        ensures searching { OnOk result (IsSearching F.value F.holds task self.new) }
        ensures rows { HasSameRows task self.old self.new }
        ensures found { IfOk result (λ r. IfSome r (IsFound F.value task self.new)) }
        ensures done { IfOk result (λ r. IfNone r (IsDone scope self.new.trail self.new.dd g)) }
        ensures stay { OnOk result ((k : ℕ) →
            preimages self.old.trail k ≢ [] → preimages self.new.trail k ≢ []) }
        ensures stopped { IfErr result (Stopped F.holds task self.new) }
    {
        if self.reached.has(g) {
            return Ok(None);
        }
        if is_left_out(scope, self.dd.generator(g)) {
            return Ok(None);
        }
        if let Some(cut) = self.near_cut(g)? {
            return Ok(Some(Found {
                generator: g,
                is_near: true,
                cut,
            }));
        }
        match self.own_cut(g)? {
            None => Ok(None),
            Some(cut) => Ok(Some(Found {
                generator: g,
                is_near: false,
                cut,
            })),
        }
    }

    /// Brings a cut into use, if its addition does not overflow, and answers whether it did.
    fn try_cut(&mut self, cut: &Cut<F>) -> Result<bool, NoMemory>
        ghost task: { Task }
        requires searching { IsSearching F.value F.holds task self.old }
        requires next { IsNextCut F.value task self.old.trail cut.now }
        ensures searching { OnOk result (IsSearching F.value F.holds task self.new) }
        ensures grown { IfOk result (λ taken. IsTrue taken →
            HasGrown F.value task self.old.trail self.new.trail) }
        ensures as_before { IfOk result (λ taken. taken ≡ false →
            HasSameRows task self.old self.new) }
        ensures trail { IsOpenTrail task self.new.trail }
    {
        if try_take(
            self.alloc,
            self.places.as_slice(),
            &mut self.trail,
            &mut self.dd,
            cut,
        )? {
            return Ok(true);
        }
        self.failed = self.failed.saturating_add(1);
        Ok(false)
    }

    /// Brings a known cut into use, if its addition does not overflow, and answers whether it did.
    fn try_known(&mut self, cut: &Cut<F>) -> Result<bool, NoMemory>
        ghost task: { Task }
        requires searching { IsSearching F.value F.holds task self.old }
        requires cut { IsCutFor F.value task cut.now }
        ensures { OnOk result (IsSearching F.value F.holds task self.new) }
    {
        try_take(
            self.alloc,
            self.places.as_slice(),
            &mut self.trail,
            &mut self.dd,
            cut,
        )
    }

    /// Brings a known cut into use, if its place is not among those `taken` and its addition does
    /// not overflow, and answers whether it did.
    fn try_place(&mut self, cut: &Cut<F>, place: usize, taken: &mut Marks) -> Result<bool, NoMemory>
        ghost task: { Task }
        requires searching { IsSearching F.value F.holds task self.old }
        requires cut { IsCutFor F.value task cut.now }
        ensures { OnOk result (IsSearching F.value F.holds task self.new) }
    {
        let Ok(place) = u32::try_from(place) else {
            return Ok(false);
        };
        if taken.has(place) {
            return Ok(false);
        }
        if !self.try_known(cut)? {
            return Ok(false);
        }
        mark(taken, place)?;
        Ok(true)
    }

    /// Goes once through known cuts, brings those into use that were not yet and whose addition
    /// does not overflow, and answers whether there was one. `taken` has the places of those that
    /// are in use.
    fn try_each(&mut self, cuts: &[Cut<F>], taken: &mut Marks) -> Result<bool, NoMemory>
        ghost task: { Task }
        requires searching { IsSearching F.value F.holds task self.old }
        requires each { All (IsCutFor F.value task) cuts.now }
        ensures { OnOk result (IsSearching F.value F.holds task self.new) }
    {
        let mut more = false;
        for i in 0..cuts.len() {
            if self.try_place(&cuts[i], i, taken)? {
                more = true;
            }
        }
        Ok(more)
    }

    /// Brings known cuts into use, in their order. One whose addition overflows waits for the next
    /// round, as long as a round brings one into use.
    pub(crate) fn take_known(&mut self, cuts: &[Cut<F>]) -> Result<(), NoMemory>
        ghost task: { Task }
        requires searching { IsSearching F.value F.holds task self.old }
        requires each { All (IsCutFor F.value task) cuts.now }
        ensures { OnOk result (IsSearching F.value F.holds task self.new) }
    {
        let mut taken = Marks::new(self.alloc, 0)?;
        for _round in 0..cuts.len() {
            if !self.try_each(cuts, &mut taken)? {
                return Ok(());
            }
        }
        Ok(())
    }

    /// Whether there were too many failed additions for the rows in use. No clause speaks of it.
    fn is_spent(&self) -> bool {
        self.failed / MOST_FAILED >= self.dd.row_count()
    }

    /// Brings the first cut into use whose addition does not overflow, of those that live
    /// generators violate, from the newest to the oldest: it may take away the long generators, at
    /// which others overflow. If there is none, the first cut whose addition overflows is kept; so
    /// it is after too many failed additions.
    fn advance(&mut self, scope: Scope) -> Result<Round<F>, SolveFault>
        ghost task: { Task }
        requires { IsSearching F.value F.holds task self.old }
        ensures searching { OnOk result (IsSearching F.value F.holds task self.new) }
        ensures round { IfOk result (IsRound F.value task scope self.old self.new) }
        ensures stopped { IfErr result (Stopped F.holds task self.new) }
    {
        let count = self.dd.live().len();
        let mut first = None;
        for i in 0..count {
            let g = self.dd.live()[count - 1 - i];
            if let Some(found) = self.reach(scope, g)? {
                if self.try_cut(&found.cut)? {
                    return Ok(Round::Grown);
                }
                let kept = first.unwrap_or(found);
                if self.is_spent() {
                    return Ok(Round::Overflowed(kept));
                }
                first = Some(kept);
            }
        }
        match first {
            Some(found) => Ok(Round::Overflowed(found)),
            None => Ok(Round::Reached),
        }
    }

    /// The cut of a generator itself, in the place of one that was asked near it.
    fn kept_cut(&mut self, found: Found<F>) -> Result<Cut<F>, SolveFault>
        ghost task: { Task }
        requires searching { IsSearching F.value F.holds task self.old }
        requires found { IsFound F.value task self.old found }
        ensures searching { OnOk result (IsSearching F.value F.holds task self.new) }
        ensures rows { HasSameRows task self.old self.new }
        ensures cut { IfOk result (IsNextCut F.value task self.new.trail) }
        ensures stopped { IfErr result (Stopped F.holds task self.new) }
    {
        let Found {
            generator,
            is_near,
            cut,
        } = found;
        if !is_near {
            return Ok(cut);
        }
        if self.reached.has(generator) {
            return Ok(cut);
        }
        match self.own_cut(generator)? {
            Some(own) => Ok(own),
            None => Ok(cut),
        }
    }

    /// Brings a cut into use that a live generator violates, whether or not its addition
    /// overflows. Where it was asked near the generator, it is that of the generator itself
    /// instead.
    fn settle(&mut self, found: Found<F>) -> Result<(), SolveFault>
        ghost task: { Task }
        requires searching { IsSearching F.value F.holds task self.old }
        requires found { IsFound F.value task self.old found }
        ensures searching { OnOk result (IsSearching F.value F.holds task self.new) }
        ensures grown { OnOk result (HasGrown F.value task self.old.trail self.new.trail) }
        ensures stopped { IfErr result (Stopped F.holds task self.new) }
    {
        let cut = self.kept_cut(found)?;
        take(
            self.alloc,
            self.places.as_slice(),
            &mut self.trail,
            &mut self.dd,
            &cut,
        )
    }

    /// Brings a cut into use that a live generator violates, and answers whether there is one: if
    /// not, all that are asked have pre-images.
    fn turn(&mut self, scope: Scope) -> Result<bool, SolveFault>
        ghost task: { Task }
        requires { IsSearching F.value F.holds task self.old }
        ensures searching { OnOk result (IsSearching F.value F.holds task self.new) }
        ensures grown { IfOk result (λ more. IsTrue more →
            HasGrown F.value task self.old.trail self.new.trail) }
        ensures reached { IfOk result
            (λ more. more ≡ false → AreReached scope self.new.trail self.new.dd) }
        ensures stopped { IfErr result (Stopped F.holds task self.new) }
    {
        match self.advance(scope)? {
            Round::Grown => Ok(true),
            Round::Overflowed(found) => {
                self.settle(found)?;
                Ok(true)
            }
            Round::Reached => Ok(false),
        }
    }

    /// Brings cuts into use, one at a time, until each live generator that is asked has a
    /// pre-image in the log. Each turn costs a linear program for each such generator that has
    /// none, up to the first with a cut whose addition does not overflow, and an addition to the
    /// double description for each cut.
    pub(crate) fn approximate(&mut self, scope: Scope) -> Result<(), SolveFault>
        ghost task: { Task }
        requires { IsSearching F.value F.holds task self.old }
        ensures searching { OnOk result (IsSearching F.value F.holds task self.new) }
        ensures reached { OnOk result (AreReached scope self.new.trail self.new.dd) }
        ensures stopped { IfErr result (Stopped F.holds task self.new) }
    {
        while self.turn(scope)? {}
        Ok(())
    }

    /// Asks at the live directions, and brings the cuts that they violate into use, until each has
    /// a pre-image in the log, so that they are the extreme directions of the image's recession
    /// cone.
    pub(crate) fn directions(&mut self) -> Result<(), SolveFault>
        ghost task: { Task }
        requires { IsSearching F.value F.holds task self.old }
        ensures searching { OnOk result (IsSearching F.value F.holds task self.new) }
        ensures reached { OnOk result (AreDirectionsReached self.new.trail self.new.dd) }
        ensures stopped { IfErr result (Stopped F.holds task self.new) }
    {
        self.approximate(Scope::Directions)
    }
}
