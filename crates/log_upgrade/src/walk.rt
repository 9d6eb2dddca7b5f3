//! The walk along the entries of a log that makes its upgrade.
ghost use Rattle.std.specs.Prelude.{◌≡◌, ◌<◌, ◌++◌, ◌∷◌, [], List, IsTrue, IfOk, OnOk, Some, None};
ghost use Rattle.std.specs.List.{list_all};
ghost use Rattle.frac128.specs.declared.vectors.Spot.{Spot};
ghost use Rattle.vlp_problem.specs.declared.problem.Problem.{Problem};
ghost use Rattle.deriv_log.specs.Formed.{is_formed};
ghost use Rattle.word_lines.specs.Parts.{is_short};
ghost use Rattle.src_sink.specs.Texts.{line_text};
ghost use Rattle.deriv_log.specs.LogText.{entry_words, log_text};
ghost use Rattle.deriv_log.specs.declared.entry.Entry.{Entry};
ghost use Rattle.log_versions.specs.Upgrade.{body, naming, more_shared};
ghost use Rattle.log_upgrade.specs.Repeats.{AreStandings};
ghost use Rattle.log_upgrade.specs.Walk.{in_place, placed, IsFirst, IsNext, IsPut, StandsAt, IsUpgraded, IsWhole, IsWholeText};
ghost use Rattle.log_upgrade.specs.declared.repeats.Repeats.{Repeats};

use crate::repeats::{Place, Repeats, vector_of};
use cert_check::Checker;
use deriv_log::{Entries, Entry, LogPair, print_line};
use frac128::Spot;
use src_sink::{Bytes, Items, NoMemory};
use std::alloc::Global;
use vlp_problem::Problem;

/// What stands in the place of an entry.
#[derive(Drop)]
pub(crate) enum Upgraded {
    /// The entry itself.
    Same,
    /// Another entry.
    Changed(Entry),
    /// An entry that shares its vector, and one that names it.
    Shared(Entry, Entry),
}

/// A list with these items.
fn copy_list<T: Copy + Drop>(alloc: Global, items: &[T]) -> Result<Items<T>, NoMemory>
    ensures { IfOk result (λ list. list ≡ items.now) }
{
    let mut list = Items::new(alloc);
    list.append(items)?;
    Ok(list)
}

/// The entry with a shared vector in place of its own.
fn name_vector(alloc: Global, entry: &Entry, share: u32) -> Result<Entry, NoMemory>
    ensures { IfOk result (λ other. other ≡ naming share entry.now) }
{
    match entry {
        Entry::Cut { w, gamma, v, .. } => Ok(Entry::CutOf {
            w: copy_list(alloc, w.as_slice())?,
            gamma: *gamma,
            share,
            v: copy_list(alloc, v.as_slice())?,
        }),
        Entry::Point { generator, m, .. } => Ok(Entry::PointOf {
            generator: *generator,
            share,
            m: copy_list(alloc, m.as_slice())?,
        }),
        Entry::Ray { generator, m, .. } => Ok(Entry::RayOf {
            generator: *generator,
            share,
            m: copy_list(alloc, m.as_slice())?,
        }),
        _ => entry.copy(alloc),
    }
}

/// An entry that has its vector at this place.
fn at_place(
    alloc: Global,
    entry: &Entry,
    vector: &[Spot],
    place: Place,
) -> Result<Upgraded, NoMemory>
    requires formed { IsTrue (is_formed entry.now) }
    requires vector { body entry.now ≡ Some vector.now }
    ensures is { IfOk result
        (λ upgraded. in_place entry.now upgraded ≡ placed vector.now entry.now place) }
    ensures formed { IfOk result
        (λ upgraded. IsTrue (list_all is_formed (in_place entry.now upgraded))) }
{
    match place {
        Place::Own => Ok(Upgraded::Same),
        Place::First(share) => {
            let first = Entry::Share {
                v: copy_list(alloc, vector)?,
            };
            Ok(Upgraded::Shared(first, name_vector(alloc, entry, share)?))
        }
        Place::Again(share) => Ok(Upgraded::Changed(name_vector(alloc, entry, share)?)),
    }
}

/// Each number can be written in a log.
fn are_short(numbers: &[u32])
    ensures { IsTrue (list_all is_short numbers.now) }
{}

/// An `add` with its hints.
fn add_with_hints(
    alloc: Global,
    cut: u32,
    pairs: &[LogPair],
    hints: Items<u32>,
) -> Result<Entry, NoMemory>
    requires { IsTrue (is_formed (Entry.Add cut pairs.now)) }
    ensures is { IfOk result (λ entry. entry ≡ Entry.AddHints cut pairs.now hints) }
    ensures formed { IfOk result (λ entry. IsTrue (is_formed entry)) }
{
    are_short(hints.as_slice());
    Ok(Entry::AddHints {
        cut,
        pairs: copy_list(alloc, pairs)?,
        hints,
    })
}

/// What stands in the place of an entry that has no vector to share.
fn with_hints(alloc: Global, checker: &Checker, entry: &Entry) -> Result<Upgraded, NoMemory>
    requires none { body entry.now ≡ None }
    requires next { (file : Problem) × (all before : List Entry) × (vectors : List (List Spot))
        × (after : List Entry) × (repeats : Repeats)
        × IsNext file all before vectors entry.now after checker.now repeats }
    ensures { (file : Problem) (all before : List Entry) (vectors : List (List Spot))
        (after : List Entry) (repeats : Repeats)
        → IsNext file all before vectors entry.now after checker.now repeats
        → IfOk result (IsUpgraded file.objs all before vectors entry.now) }
{
    match entry {
        Entry::Version(_) => Ok(Upgraded::Changed(Entry::Version(2))),
        Entry::Add { cut, pairs } => {
            let hints = checker.least_hints(alloc, *cut, pairs.as_slice())?;
            Ok(Upgraded::Changed(add_with_hints(alloc, *cut, pairs.as_slice(), hints)?))
        }
        _ => Ok(Upgraded::Same),
    }
}

/// What stands in the place of the next entry.
fn upgrade_entry<'a>(
    alloc: Global,
    checker: &Checker,
    repeats: &mut Repeats<'a>,
    entry: &'a Entry,
) -> Result<Upgraded, NoMemory>
    requires { (file : Problem) × (all before : List Entry) × (vectors : List (List Spot))
        × (after : List Entry)
        × IsNext file all before vectors entry.now after checker.now repeats.old }
    ensures is { (file : Problem) (all before : List Entry) (vectors : List (List Spot))
        (after : List Entry)
        → IsNext file all before vectors entry.now after checker.now repeats.old
        → IfOk result (IsUpgraded file.objs all before vectors entry.now) }
    ensures standings { (file : Problem) (all before : List Entry) (vectors : List (List Spot))
        (after : List Entry)
        → IsNext file all before vectors entry.now after checker.now repeats.old
        → OnOk result (AreStandings all (more_shared all vectors entry.now) repeats.new) }
{
    match vector_of(entry) {
        Some(vector) => {
            let place = repeats.take(vector)?;
            at_place(alloc, entry, vector, place)
        }
        None => with_hints(alloc, checker, entry),
    }
}

/// What is known after some entries of a log.
#[derive(Drop)]
pub(crate) struct Upgrader<'a> {
    checker: Checker,
    repeats: Repeats<'a>,
}

impl<'a> Upgrader<'a> {
    /// Before the first of these entries.
    pub(crate) fn new(
        alloc: Global,
        problem: &Problem,
        entries: &'a [Entry],
    ) -> Result<Upgrader<'a>, NoMemory>
        ensures { IfOk result (StandsAt problem.now entries.now [] []) }
    {
        Ok(Upgrader {
            checker: Checker::new(alloc, problem)?,
            repeats: Repeats::of(alloc, entries)?,
        })
    }

    /// What stands in the place of the next entry. Its copies are all that it takes memory for,
    /// besides the hints.
    pub(crate) fn take(
        &mut self,
        alloc: Global,
        problem: &Problem,
        entry: &'a Entry,
    ) -> Result<Upgraded, NoMemory>
        requires { (all before : List Entry) × (vectors : List (List Spot)) × (after : List Entry)
            × IsNext problem.now all before vectors entry.now after self.old.checker
            self.old.repeats }
        ensures is { (all before : List Entry) (vectors : List (List Spot)) (after : List Entry)
            → IsNext problem.now all before vectors entry.now after self.old.checker
            self.old.repeats
            → IfOk result (IsUpgraded problem.now.objs all before vectors entry.now) }
        ensures stands { (all before : List Entry) (vectors : List (List Spot)) (after : List Entry)
            → IsNext problem.now all before vectors entry.now after self.old.checker
            self.old.repeats
            → OnOk result (StandsAt problem.now all (before ++ entry.now ∷ [])
            (more_shared all vectors entry.now) self.new) }
    {
        let upgraded = upgrade_entry(alloc, &self.checker, &mut self.repeats, entry)?;
        self.checker.take(alloc, problem, entry)?;
        Ok(upgraded)
    }

    /// Appends what stands in the place of the next entry to the entries of an upgrade.
    fn put_next(
        &mut self,
        alloc: Global,
        problem: &Problem,
        entry: &'a Entry,
        upgrade: &mut Entries,
    ) -> Result<(), NoMemory>
        requires { (all before : List Entry) × (vectors : List (List Spot)) × (after : List Entry)
            × IsNext problem.now all before vectors entry.now after self.old.checker
            self.old.repeats }
        ensures { (all before : List Entry) (vectors : List (List Spot)) (after : List Entry)
            → IsNext problem.now all before vectors entry.now after self.old.checker
            self.old.repeats
            → OnOk result
            (IsPut problem.now all before vectors entry.now upgrade.old upgrade.new self.new) }
    {
        let upgraded = self.take(alloc, problem, entry)?;
        upgraded.put(alloc, entry, upgrade)
    }

    /// Puts the lines of what stands in the place of the next entry after a text.
    fn print_next(
        &mut self,
        alloc: Global,
        problem: &Problem,
        entry: &'a Entry,
        text: &mut Bytes,
    ) -> Result<(), NoMemory>
        requires { (all before : List Entry) × (vectors : List (List Spot)) × (after : List Entry)
            × IsNext problem.now all before vectors entry.now after self.old.checker
            self.old.repeats }
        ensures { (all before : List Entry) (vectors : List (List Spot)) (after : List Entry)
            → IsNext problem.now all before vectors entry.now after self.old.checker
            self.old.repeats
            → OnOk result ((put : List Entry)
            × IsPut problem.now all before vectors entry.now [] put self.new
            × (text.new ≡ text.old ++ log_text put)) }
    {
        let upgraded = self.take(alloc, problem, entry)?;
        upgraded.print(entry, text)
    }

    /// Appends the upgrade of a log to an empty list, from the state before its first entry on.
    pub(crate) fn put_all(
        &mut self,
        alloc: Global,
        problem: &Problem,
        entries: &'a [Entry],
        upgrade: &mut Entries,
    ) -> Result<(), NoMemory>
        requires first { IsFirst problem.now entries.now }
        requires stands { StandsAt problem.now entries.now [] [] self.old }
        requires empty { upgrade.old ≡ [] }
        ensures { OnOk result (IsWhole problem.now.objs entries.now upgrade.new) }
    {
        for entry in entries {
            self.put_next(alloc, problem, entry, upgrade)?;
        }
        Ok(())
    }

    /// Puts its text into an empty one: at each entry what stands in its place is printed, and let
    /// go.
    pub(crate) fn print_all(
        &mut self,
        alloc: Global,
        problem: &Problem,
        entries: &'a [Entry],
        text: &mut Bytes,
    ) -> Result<(), NoMemory>
        requires first { IsFirst problem.now entries.now }
        requires stands { StandsAt problem.now entries.now [] [] self.old }
        requires empty { text.old ≡ [] }
        ensures { OnOk result (IsWholeText problem.now.objs entries.now text.new) }
    {
        for entry in entries {
            self.print_next(alloc, problem, entry, text)?;
        }
        Ok(())
    }
}

/// Puts the line of an entry after a text, and lets the entry go.
fn print_made(entry: Entry, text: &mut Bytes) -> Result<(), NoMemory>
    ensures { OnOk result (text.new ≡ text.old ++ line_text (entry_words entry)) }
{
    print_line(&entry, text)
}

impl Upgraded {
    /// Appends it to the entries of an upgrade.
    pub(crate) fn put(
        self,
        alloc: Global,
        entry: &Entry,
        upgrade: &mut Entries,
    ) -> Result<(), NoMemory>
        ensures { OnOk result (upgrade.new ≡ upgrade.old ++ in_place entry.now self) }
    {
        match self {
            Upgraded::Same => upgrade.push(entry.copy(alloc)?),
            Upgraded::Changed(other) => upgrade.push(other),
            Upgraded::Shared(share, other) => {
                upgrade.push(share)?;
                upgrade.push(other)
            }
        }
    }

    /// Puts its lines after a text.
    pub(crate) fn print(self, entry: &Entry, text: &mut Bytes) -> Result<(), NoMemory>
        ensures { OnOk result (text.new ≡ text.old ++ log_text (in_place entry.now self)) }
    {
        match self {
            Upgraded::Same => print_line(entry, text),
            Upgraded::Changed(other) => print_made(other, text),
            Upgraded::Shared(share, other) => {
                print_made(share, text)?;
                print_made(other, text)
            }
        }
    }
}
