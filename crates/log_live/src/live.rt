//! The live generators of a log as one value.
ghost use Rattle.std.specs.Prelude.{◌≡◌, ◌≤◌, ◌<◌, ◌*◌, ◌==◌, ℕ, List, [], ◌∷◌, ◌++◌, IfOk, OnOk, IfSome, IfNone, length, map, not, false, is_some, option_copied};
ghost use Rattle.std.specs.List.{list_all};
ghost use Rattle.exact_field.specs.Rational.{ℚ};
ghost use Rattle.exact_field.specs.Vector.{dot};
ghost use Rattle.frac128.specs.Held.{is_held};
ghost use Rattle.deriv_log.specs.declared.entry.Entry.{Entry};
ghost use Rattle.deriv_log.specs.declared.entry.Entry.TheVariants.{Start, Add, Point, Ray};
ghost use Rattle.frac128.specs.declared.vectors.Spot.{Spot};
ghost use Rattle.vlp_problem.specs.declared.problem.Problem.{Problem};
ghost use Rattle.log_rules.specs.AnswerEvents.{is_open};
ghost use Rattle.log_rules.specs.Live.{State, after, cut_row, nothing, preimages, rows_in_use};
ghost use Rattle.log_rules.specs.Meets.{MeetsStart};
ghost use Rattle.log_rules.specs.Runs.{RunsAll, steps};
ghost use Rattle.log_versions.specs.Hints.{least_hints};
ghost use Rattle.log_live.specs.Adding.{IsAddition, IsChange, kept_of};
ghost use Rattle.log_live.specs.Hinting.{PassesAddition, addition_events};
ghost use Rattle.log_live.specs.Live.{HasPreimages, IsListOf, IsOpenAt, StandsFor};

use crate::adding::{keep_all, new_generators, number_after};
use crate::asking::{least_hints, test_addition};
use crate::generator::{Generator, find};
use crate::starting::first_generator;
use crate::values::values_at;
use deriv_log::LogPair;
use entry_checks::{SharedVector, Steps};
use frac128::Frac;
use log_rules::Stop;
use src_sink::{Items, NoMemory};
use std::alloc::Global;
use std::mem::replace;

/// The live generators of a log after some of its entries, each with the rows in use that are
/// tight at it and the pre-image that it has.
#[derive(Debug, Drop)]
pub struct Live {
    /// They stand by rising numbers.
    pub generators: Vec<Generator>,
    /// The number that the next new generator gets.
    pub next: u32,
}

/// What an `add` or `addh` entry changes.
#[derive(Debug, Drop)]
pub struct Change {
    /// The values of the row at the live generators.
    pub values: Items<Frac>,
    /// The new generators, one for each listed pair.
    pub made: Vec<Generator>,
    /// The number that the next new one gets.
    pub next: u32,
}

/// Whether each has a pre-image.
fn are_given(generators: &[Generator]) -> bool
    ensures { result ≡ list_all (λ g. is_some g.pre) generators.now }
{
    generators.iter().all(|generator| generator.pre.is_some())
}

impl Live {
    /// No generators, as before a `start`.
    pub fn new(alloc: Global) -> Live
        ensures list { (q : ℕ) (s : State) → s.list ≡ nothing.list → IsListOf q s result }
        ensures preimages { (before : List Entry) → ((k : ℕ) → 1 ≤ k → preimages before k ≡ [])
            → HasPreimages before result }
    {
        Live {
            generators: Vec::new(alloc),
            next: 1,
        }
    }

    /// The generators of a `start` entry that meets its rules: its point and the direction of each
    /// of its `count` cuts. No product is computed.
    pub fn start(
        alloc: Global,
        q: u32,
        count: u32,
        point: &[Frac],
        directions: &[Frac],
    ) -> Result<Live, NoMemory>
        requires few { q ≤ 100000 }
        requires many { count ≤ 100000 }
        requires entries { length directions.now ≡ count * q }
        ensures list { (file : Problem) (before : List Entry) (s : State) (cuts : List ℕ)
            → file.objs ≡ q → length cuts ≡ count
            → MeetsStart file before s cuts point.now directions.now
            → IfOk result
            (IsListOf file.objs (after file.objs s (Start cuts point.now directions.now))) }
        ensures preimages { (before : List Entry) → ((k : ℕ) → 1 ≤ k → preimages before k ≡ [])
            → IfOk result (HasPreimages before) }
    {
        let mut generators = Vec::new(alloc);
        generators.push(first_generator(alloc, count, 0, point, Frac::from(1))?)?;
        let width = q as usize;
        for a in 0..count as usize {
            let from = a * width;
            let direction = &directions[from..from + width];
            let place = a as u32 + 1;
            generators.push(first_generator(alloc, count, place, direction, Frac::from(0))?)?;
        }
        Ok(Live {
            generators,
            next: count + 2,
        })
    }

    /// What an addition changes, by its events after the test of its number.
    fn change_at(
        &self,
        alloc: Global,
        w: &[Frac],
        gamma: Frac,
        pairs: &[LogPair],
        hints: Option<&[u32]>,
    ) -> Result<Change, Stop>
        requires addition { (file : Problem) × (s : State) × (cut : ℕ)
            × IsAddition file s cut w.now gamma self.now }
        ensures { (file : Problem) (s : State) (cut : ℕ)
            → IsAddition file s cut w.now gamma self.now
            → RunsAll is_held
            (addition_events file.objs s cut pairs.now (option_copied hints.entry))
            (IsChange file.objs s cut pairs.now self.now) result }
    {
        let first_new = self.next;
        let generators = self.generators.as_slice();
        let mut counter = Steps { taken: 0 };
        let values = values_at(alloc, &mut counter, w, gamma, generators)?;
        let at_row = values.as_slice();
        test_addition(alloc, generators, at_row, pairs, hints)?;
        let made = new_generators(
            alloc,
            &mut counter,
            w.len(),
            generators,
            at_row,
            pairs,
            first_new,
        )?;
        let next = number_after(first_new, pairs.len())?;
        Ok(Change { values, made, next })
    }

    /// Drops the generators at which the row of the change is negative, gives the others the row,
    /// and lists the new ones.
    fn take(&mut self, alloc: Global, change: Change) -> Result<(), NoMemory>
        requires { length change.values ≡ length self.old.generators.items }
        ensures { (row : List ℚ)
            → change.values ≡ map (λ g. dot row g.vector) self.old.generators.items
            → OnOk result
            ((self.new.generators.items
            ≡ kept_of row self.old.generators.items ++ change.made.items)
            × (self.new.next ≡ change.next)) }
    {
        let Change { values, made, next } = change;
        let mut made = made;
        let generators = replace(&mut self.generators, Vec::new(alloc));
        self.generators = keep_all(alloc, generators, values.as_slice())?;
        self.generators.append(&mut made)?;
        self.next = next;
        Ok(())
    }

    /// The events of an `add` entry or, with hints, of an `addh` entry, after the test of its
    /// number and for the cut `w.y >= gamma`: its values at the live generators, the tests of the
    /// pairs and of the hints, and the new generators. Those at which it is negative are dropped,
    /// and the others keep their pre-images. After an error the value is of no use. The cost is at
    /// the worst that of the opposite pairs times the generators times the words of a tight set;
    /// most pairs are decided by counts of tight rows. An opposite pair that has a hint, a third
    /// live generator that covers it, is not searched for.
    pub fn add(
        &mut self,
        alloc: Global,
        w: &[Frac],
        gamma: Frac,
        pairs: &[LogPair],
        hints: Option<&[u32]>,
    ) -> Result<(), Stop>
        requires addition { (file : Problem) × (s : State) × (cut : ℕ)
            × IsAddition file s cut w.now gamma self.old }
        ensures runs { (file : Problem) (s : State) (cut : ℕ)
            → IsAddition file s cut w.now gamma self.old
            → RunsAll is_held
            (addition_events file.objs s cut pairs.now (option_copied hints.entry))
            (λ _. IsListOf file.objs (after file.objs s (Add cut pairs.now)) self.new) result }
        ensures preimages { (file : Problem) (s : State) (cut : ℕ) (before : List Entry)
            → IsAddition file s cut w.now gamma self.old → HasPreimages before self.old
            → OnOk result (HasPreimages (before ++ Add cut pairs.now ∷ []) self.new) }
    {
        let change = self.change_at(alloc, w, gamma, pairs, hints)?;
        match self.take(alloc, change) {
            Ok(()) => Ok(()),
            Err(_) => Err(Stop::NoMemory),
        }
    }

    /// The least hints of an addition that passes: for each opposite pair that is not listed, in
    /// their order, the least generator that covers it. It costs the opposite pairs times the
    /// places of these generators.
    pub fn least_hints(
        &self,
        alloc: Global,
        w: &[Frac],
        gamma: Frac,
        pairs: &[LogPair],
    ) -> Result<Items<u32>, NoMemory>
        requires { (file : Problem) × (s : State) × (cut : ℕ)
            × PassesAddition file s cut w.now gamma pairs.now self.now }
        ensures { (file : Problem) (s : State) (cut : ℕ)
            → PassesAddition file s cut w.now gamma pairs.now self.now
            → IfOk result (λ hints. hints
            ≡ least_hints (rows_in_use file.objs s) s.list.live (cut_row s cut) pairs.now) }
    {
        // Generators have numbers below this one, so there are few enough to count the steps.
        let _next = self.next;
        let generators = self.generators.as_slice();
        let mut counter = Steps { taken: 0 };
        match values_at(alloc, &mut counter, w, gamma, generators) {
            Ok(values) => least_hints(alloc, generators, values.as_slice(), pairs),
            Err(_) => Err(NoMemory),
        }
    }

    /// The place of the live generator of this number, if it has this t and no pre-image yet: 1 for
    /// the generator of a `point` entry, 0 for that of a `ray`. The cost is the logarithm of the
    /// number of generators.
    pub fn place_open(&self, number: u32, t: Frac) -> Option<usize>
        requires standing { (file : Problem) × (s : State) × StandsFor file s self.now }
        ensures some { (file : Problem) (s : State) (before : List Entry)
            → StandsFor file s self.now → HasPreimages before self.now
            → IfSome result (IsOpenAt file.objs before s number t self.now) }
        ensures none { (file : Problem) (s : State) (before : List Entry)
            → StandsFor file s self.now → HasPreimages before self.now
            → IfNone result (is_open file.objs before s.list.live number t ≡ false) }
    {
        let place = find(&self.generators, number)?;
        let generator = &self.generators[place];
        let vector = generator.vector.as_slice();
        if vector[vector.len() - 1] == t && generator.pre.is_none() {
            Some(place)
        } else {
            None
        }
    }

    /// Gives the generator at a place, which was found open, its pre-image.
    pub fn set_preimage(&mut self, place: usize, x: SharedVector)
        requires { place < length self.old.generators.items }
        ensures list { (q : ℕ) (s : State) → IsListOf q s self.old → IsListOf q s self.new }
        ensures point { (file : Problem) (s : State) (before : List Entry) (k : ℕ) (t : ℚ)
            (m : List Spot)
            → StandsFor file s self.old → HasPreimages before self.old
            → IsOpenAt file.objs before s k t self.old place
            → HasPreimages (before ++ Point k x m ∷ []) self.new }
        ensures ray { (file : Problem) (s : State) (before : List Entry) (k : ℕ) (t : ℚ)
            (m : List Spot)
            → StandsFor file s self.old → HasPreimages before self.old
            → IsOpenAt file.objs before s k t self.old place
            → HasPreimages (before ++ Ray k x m ∷ []) self.new }
    {
        let generator = &mut self.generators[place];
        generator.pre = Some(x);
    }

    /// Whether each live generator has a pre-image.
    pub fn are_reached(&self) -> bool
        ensures { (q : ℕ) (s : State) (before : List Entry) → IsListOf q s self.now
            → HasPreimages before self.now
            → result ≡ list_all (λ g. not (length (preimages before g.number) == 0)) s.list.live }
    {
        are_given(&self.generators)
    }
}
