//! What stands after some entries of a conversion.
ghost use Rattle.std.specs.Prelude.{◌≡◌, ◌≤◌, ◌<◌, ◌++◌, ◌∷◌, ◌&&◌, ◌||◌, [], ℕ, List, Bool, not, nat_lt, true, slice_set, IfOk, OnOk, length};
ghost use Rattle.exact_field.specs.Rational.{ℚ};
ghost use Rattle.std.specs.List.{list_all, range_with_len};
ghost use Rattle.incid_sets.specs.Marks.{has};
ghost use Rattle.frac128.specs.Held.{is_held};
ghost use Rattle.log_rules.specs.Live.{contains};
ghost use Rattle.log_rules.specs.Runs.{RunsAll};
ghost use Rattle.log_live.specs.Adding.{kept_of};
ghost use Rattle.rep_conv.specs.Adding.{values_at};
ghost use Rattle.rep_conv.specs.Events.{add_events, all_used as are_all_used, events, kind_events, line_events, start_events};
ghost use Rattle.rep_conv.specs.Live.{State, after};
ghost use Rattle.rep_conv.specs.Meets.{MeetsStart, has_start, in_order as is_in_order, is_start, needs_start};
ghost use Rattle.rep_conv.specs.Rows.{text_rows as rows_of};
ghost use Rattle.rep_conv.specs.Progress.{Holds, Keeps, StandsAfter};
ghost use Rattle.rep_text.specs.declared.conv.ConvEntry.{ConvEntry};
ghost use Rattle.rep_text.specs.declared.conv.ConvEntry.TheVariants.{Add, Line, Start};

use crate::adding::{Change, change_at};
use crate::firsts::{copy_vector, first_generators, set_of};
use crate::line::check_line;
use crate::rows::text_rows;
use crate::start::check_start;
use entry_checks::pass;
use frac128::{Frac, Vectors};
use incid_sets::Marks;
use log_live::{Generator, keep_all};
use log_rules::{Rule, Stop};
use rep_text::{ConvEntry, Rep};
use src_sink::{Items, NoMemory};
use std::alloc::Global;
use std::mem::replace;
use word_lines::LogPair;

/// What stands after some entries of a conversion.
#[derive(Debug, Drop)]
pub struct Standing {
    /// The rows of the representation.
    pub rows: Vectors,
    /// Whether there was a `start`.
    pub started: bool,
    pub lines: Vectors,
    /// The numbers of the rows in use.
    pub in_use: Marks,
    /// The live generators by rising numbers, each with the set of the rows in use that are 0 at
    /// it.
    pub generators: Vec<Generator>,
    /// The number that the next new generator gets.
    pub next: u32,
}

/// Whether an entry may stand after so many, where there are rows or not, and was a `start` or not.
fn in_order(some: bool, number: usize, started: bool, entry: &ConvEntry) -> bool
    ensures { (before : List ConvEntry) → length before ≡ number → has_start before ≡ started
        → result ≡ is_in_order some before entry.now }
{
    match entry {
        ConvEntry::Conv(_) => number == 0,
        ConvEntry::Line { .. } | ConvEntry::Start { .. } => some && number != 0 && !started,
        ConvEntry::Add { .. } => started,
        ConvEntry::End => { if some { started } else { number == 1 } }
    }
}

/// Whether a set has all numbers below its bound.
fn has_all(marks: &Marks) -> bool
    ensures { result ≡ list_all (has marks.now) (range_with_len 0 (length marks.now)) }
{
    (0..marks.bound()).all(|k| marks.has(k))
}

impl Standing {
    /// What stands before all entries.
    pub fn new(alloc: Global, rep: &Rep) -> Result<Standing, NoMemory>
        ensures { IfOk result (StandsAfter rep.now []) }
    {
        let rows = text_rows(alloc, rep)?;
        if rows.len() > 4294967294 {
            return Err(NoMemory);
        }
        let in_use = Marks::new(alloc, rows.len() as u32)?;
        Ok(Standing {
            rows,
            started: false,
            lines: Items::new(alloc),
            in_use,
            generators: Vec::new(alloc),
            next: 1,
        })
    }

    fn push_line(&mut self, alloc: Global, d: &[Frac]) -> Result<(), NoMemory>
        ensures { OnOk result
            (self.new ≡ record self.old { lines = self.old.lines ++ d.now ∷ [] }) }
    {
        self.lines.push(copy_vector(alloc, d)?)?;
        Ok(())
    }

    /// A `line` entry after the test of its order.
    fn take_line(&mut self, alloc: Global, rep: &Rep, d: &[Frac]) -> Result<(), Stop>
        requires { (s : State) × Keeps rep.now s self.old }
        ensures { (s : State) → Keeps rep.now s self.old
            → RunsAll is_held (line_events rep.now s.lines d.now)
            (λ _. Keeps rep.now (after rep.now s (Line d.now)) self.new
            × (self.new.started ≡ self.old.started)) result }
    {
        check_line(rep, self.rows.as_slice(), self.lines.as_slice(), d)?;
        match self.push_line(alloc, d) {
            Ok(()) => Ok(()),
            Err(_) => Err(Stop::NoMemory),
        }
    }

    /// Takes the rows and generators of a `start` that meets its rules.
    fn begin(
        &mut self,
        alloc: Global,
        rep: &Rep,
        named: &[u32],
        gens: &[Frac],
    ) -> Result<(), NoMemory>
        requires { (s : State) × Keeps rep.now s self.old
            × MeetsStart rep.now s named.now gens.now }
        ensures { (s : State) → Keeps rep.now s self.old → MeetsStart rep.now s named.now gens.now
            → OnOk result (Keeps rep.now (after rep.now s (Start named.now gens.now)) self.new
            × (self.new.started ≡ true)) }
    {
        let count = named.len() as u32;
        let bound = self.rows.len() as u32;
        self.generators = first_generators(alloc, count, rep.width as usize + 1, gens)?;
        self.in_use = set_of(alloc, bound, named)?;
        self.next = count + 1;
        self.started = true;
        Ok(())
    }

    /// A `start` entry after the test of its order.
    fn take_start(
        &mut self,
        alloc: Global,
        rep: &Rep,
        named: &[u32],
        gens: &[Frac],
    ) -> Result<(), Stop>
        requires { (s : State) × Keeps rep.now s self.old }
        ensures { (s : State) → Keeps rep.now s self.old
            → RunsAll is_held (start_events rep.now s.lines named.now gens.now)
            (λ _. Keeps rep.now (after rep.now s (Start named.now gens.now)) self.new
            × (self.new.started ≡ true)) result }
    {
        check_start(
            rep,
            self.rows.as_slice(),
            self.lines.as_slice(),
            named,
            gens,
        )?;
        match self.begin(alloc, rep, named, gens) {
            Ok(()) => Ok(()),
            Err(_) => Err(Stop::NoMemory),
        }
    }

    /// Whether a row exists and is not in use.
    fn is_free(&self, row: u32) -> bool
        ensures { (rep : Rep) (s : State) → Keeps rep s self.now
            → result ≡ (nat_lt row (length (rows_of rep)) && not (contains s.used row)) }
    {
        (row as usize) < self.rows.len() && !self.in_use.has(row)
    }

    /// Brings a row into use: drops the generators at which it is negative, gives the others the
    /// row, and lists the new ones.
    fn grow(&mut self, alloc: Global, row: u32, change: Change) -> Result<(), NoMemory>
        requires values { length change.values ≡ length self.old.generators.items }
        requires few { length change.values ≤ 4294967294 }
        requires row { row < length self.old.in_use }
        ensures { (r : List ℚ) → change.values ≡ values_at r self.old.generators.items
            → OnOk result
            ((self.new.generators.items
            ≡ kept_of r self.old.generators.items ++ change.made.items)
            × (self.new.next ≡ change.next)
            × (self.new.in_use ≡ slice_set self.old.in_use row true)
            × (self.new.rows ≡ self.old.rows) × (self.new.lines ≡ self.old.lines)
            × (self.new.started ≡ self.old.started)) }
    {
        let Change { values, made, next } = change;
        let mut made = made;
        let generators = replace(&mut self.generators, Vec::new(alloc));
        self.generators = keep_all(alloc, generators, values.as_slice())?;
        self.generators.append(&mut made)?;
        self.in_use.insert(row);
        self.next = next;
        Ok(())
    }

    /// An `add` entry after the test of its order.
    fn take_add(
        &mut self,
        alloc: Global,
        rep: &Rep,
        row: u32,
        pairs: &[LogPair],
    ) -> Result<(), Stop>
        requires { (s : State) × Holds rep.now s self.old × (self.old.started ≡ true) }
        ensures { (s : State) → Holds rep.now s self.old → self.old.started ≡ true
            → RunsAll is_held (add_events rep.now s row pairs.now)
            (λ _. Keeps rep.now (after rep.now s (Add row pairs.now)) self.new
            × (self.new.started ≡ true)) result }
    {
        pass(Rule::Index, self.is_free(row))?;
        let rows = self.rows.as_slice();
        let change = change_at(
            alloc,
            self.generators.as_slice(),
            rows[row as usize].as_slice(),
            pairs,
            self.next,
        )?;
        match self.grow(alloc, row, change) {
            Ok(()) => Ok(()),
            Err(_) => Err(Stop::NoMemory),
        }
    }

    /// Whether all rows are in use.
    fn are_all_used(&self) -> bool
        ensures { (rep : Rep) (s : State) → Keeps rep s self.now
            → result ≡ are_all_used rep s }
    {
        has_all(&self.in_use)
    }

    /// An entry after the test of its order.
    fn take_kind(&mut self, alloc: Global, rep: &Rep, entry: &ConvEntry) -> Result<(), Stop>
        requires { (s : State) × Holds rep.now s self.old
            × (needs_start entry.now ≡ true → self.old.started ≡ true) }
        ensures { (s : State) → Holds rep.now s self.old
            → (needs_start entry.now ≡ true → self.old.started ≡ true)
            → RunsAll is_held (kind_events rep.now s entry.now)
            (λ _. Keeps rep.now (after rep.now s entry.now) self.new
            × (self.new.started ≡ (self.old.started || is_start entry.now))) result }
    {
        match entry {
            ConvEntry::Conv(version) => pass(Rule::Version, *version == 1),
            ConvEntry::Line { d } => self.take_line(alloc, rep, d.as_slice()),
            ConvEntry::Start { rows, gens } => {
                self.take_start(alloc, rep, rows.as_slice(), gens.as_slice())
            }
            ConvEntry::Add { row, pairs } => self.take_add(alloc, rep, *row, pairs.as_slice()),
            ConvEntry::End => pass(Rule::Missing, self.are_all_used()),
        }
    }

    /// Goes through an entry after so many.
    pub fn take(
        &mut self,
        alloc: Global,
        rep: &Rep,
        number: usize,
        entry: &ConvEntry,
    ) -> Result<(), Stop>
        requires { (before : List ConvEntry) × StandsAfter rep.now before self.old
            × (length before ≡ number) }
        ensures { (before : List ConvEntry) → StandsAfter rep.now before self.old
            → length before ≡ number
            → RunsAll is_held (events rep.now before entry.now)
            (λ _. StandsAfter rep.now (before ++ entry.now ∷ []) self.new) result }
    {
        pass(
            Rule::Order,
            in_order(
                !self.rows.as_slice().is_empty(),
                number,
                self.started,
                entry,
            ),
        )?;
        self.take_kind(alloc, rep, entry)
    }
}
