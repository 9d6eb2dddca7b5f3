//! For each row the places of the generators at which it is tight, and what pairs are found by that.
ghost use Rattle.std.specs.Prelude.{◌≡◌, ◌+◌, ◌<◌, ◌≤◌, ℕ, List, Bool, All, IfOk, IsFalse, IsTrue, OnOk, false, get_or, length};
ghost use Rattle.incid_sets.specs.Marks.{has, size, ContainsAll, IsMeet};
ghost use Rattle.exact_field.specs.Rational.{ℚ};
ghost use Rattle.polyhedra.specs.LiveList.{is_uncovered_live};
ghost use Rattle.double_descr.specs.ByRow.{set_of, AreByRow, AreSetsOf, AreWithin, GivesPlace, HasPlace, HasPlaceIn, HaveRoom, IsIndexed};
ghost use Rattle.double_descr.specs.Making.{Addition, AreValuesAt, IsSearch};
ghost use Rattle.double_descr.specs.State.{AreTwoLive, HasTightSet, live_of, pair_of};

use crate::generator::Generator;
use crate::reach::reach_of;
use exact_field::Field;
use incid_sets::Marks;
use src_sink::{Items, NoMemory};
use std::alloc::Global;

/// What the pairs of an addition are found by.
#[derive(Debug, Drop)]
pub struct Search {
    /// The rows that are tight at one of the generators at which the new row is negative.
    pub reach: Marks,
    /// For each of these rows the places of the generators at which it is tight. `None` where there
    /// are too few pairs for it to be worth its making.
    pub by_row: Option<Items<Marks>>,
    /// The places of all generators.
    pub all: Marks,
}

/// An empty set for each row, with room for so many places if the row is in a set, and else with
/// none.
fn empty_sets(alloc: Global, rows: &Marks, count: u32) -> Result<Vec<Marks>, NoMemory>
    ensures { IfOk result (λ sets. HaveRoom rows.now count sets.items) }
{
    let bound = rows.bound();
    let mut sets = Vec::with_capacity(alloc, bound as usize)?;
    for r in 0..bound {
        let room = if rows.has(r) { count } else { 0 };
        sets.push(Marks::new(alloc, room)?)?;
    }
    Ok(sets)
}

/// Gives the sets of some rows a place.
fn insert_place(sets: &mut Vec<Marks>, rows: &Marks, place: u32)
    requires few { length rows.now < 4294967296 }
    requires inside { length rows.now ≤ length sets.old.items }
    requires room { (r : ℕ) → IsTrue (has rows.now r)
        → place < length (set_of sets.old.items r) }
    ensures { GivesPlace rows.now place sets.old.items sets.new.items }
{
    let mut from = 0;
    while let Some(r) = rows.next_from(from) {
        sets[r as usize].insert(place);
        from = r + 1;
    }
}

/// Gives the sets of some rows the places of all generators at which they are tight. The cost is
/// that of the words of the sets of tight rows, and of each place that is given.
fn fill_sets<F: Field>(
    alloc: Global,
    generators: &[Generator<F>],
    rows: &Marks,
    sets: &mut Vec<Marks>,
) -> Result<(), NoMemory>
    requires few { length rows.now < 4294967296 }
    requires numbered { length generators.now < 4294967296 }
    requires tight { All (λ g. length g.tight ≡ length rows.now) generators.now }
    requires room { HaveRoom rows.now (length generators.now) sets.old.items }
    ensures { OnOk result
        (AreByRow generators.now rows.now (length generators.now) sets.new.items) }
{
    let mut shared = Marks::new(alloc, rows.bound())?;
    for i in 0..generators.len() {
        shared.set_meet(rows, &generators[i].tight);
        insert_place(sets, &shared, i as u32);
    }
    Ok(())
}

/// With fewer negative values than this, the sets would cost more than reading each pair.
const ENOUGH: usize = 16;

/// The sets of the places of the generators by row, where there are enough negative values. They
/// take a bit for each generator and row at the most, as the sets of tight rows do.
fn sets_by_row<F: Field>(
    alloc: Global,
    generators: &[Generator<F>],
    rows: &Marks,
    negatives: usize,
) -> Result<Option<Items<Marks>>, NoMemory>
    requires few { length rows.now + 1 < 4294967296 }
    requires numbered { length generators.now < 4294967296 }
    requires tight { All (λ g. length g.tight ≡ length rows.now) generators.now }
    ensures { IfOk result (AreSetsOf generators.now rows.now) }
{
    if negatives < ENOUGH {
        return Ok(None);
    }
    let mut sets = empty_sets(alloc, rows, generators.len() as u32)?;
    fill_sets(alloc, generators, rows, &mut sets)?;
    Ok(Some(Items::from_vec(sets)))
}

/// What the pairs of an addition are found by, from the values of its row at the generators, and
/// how many of them are negative.
pub fn search_of<F: Field>(
    alloc: Global,
    count: u32,
    generators: &[Generator<F>],
    values: &[F],
    negatives: usize,
) -> Result<Search, NoMemory>
    ghost addition: { Addition }
    requires count { count ≡ length addition.rows }
    requires values { AreValuesAt F.value addition.row generators.now values.now }
    requires tight { All (HasTightSet F.value addition.rows) generators.now }
    requires same { length values.now ≡ length generators.now }
    requires numbered { length generators.now < 4294967296 }
    requires room { length addition.rows + 1 < 4294967296 }
    ensures { IfOk result (IsSearch F.value addition generators.now) }
{
    let reach = reach_of(alloc, count, generators, values)?;
    let by_row = sets_by_row(alloc, generators, &reach, negatives)?;
    let many = generators.len() as u32;
    let all = Marks::all_but(alloc, many, many)?;
    Ok(Search { reach, by_row, all })
}

/// Takes from a set of places those that can be seen to be in the sets of fewer than `least` of
/// some rows. A place that is in so many misses no more than the others, and so is in the set of
/// one at least of any group of that many rows and one: the rows are gone through in such groups,
/// and each is held against all places at once. The cost is that of the words of the sets.
fn narrow(sets: &[Marks], rows: &Marks, least: usize, any: &mut Marks, possible: &mut Marks)
    requires few { length rows.now < 4294967296 }
    requires inside { length rows.now ≤ length sets.now }
    requires bounded { (r : ℕ) → length (set_of sets.now r) ≤ length any.old }
    ensures bound { length possible.new ≡ length possible.old }
    ensures keeps { (place : ℕ) (tight common : List Bool) → HasPlace sets.now rows.now tight place
        → IsMeet common rows.now tight → least ≤ size common → IsTrue (has possible.old place)
        → IsTrue (has possible.new place) }
{
    let group = (rows.count() as usize).saturating_sub(least) + 1;
    let mut taken = 0;
    let mut from = 0;
    any.clear();
    while let Some(r) = rows.next_from(from) {
        any.unite(&sets[r as usize]);
        taken += 1;
        if taken >= group {
            possible.keep(any);
            any.clear();
            taken = 0;
        }
        from = r + 1;
    }
}

/// The places at which a generator can have a pair: at others too few rows are tight at both.
pub fn possible_places<F: Field>(
    alloc: Global,
    search: &Search,
    plus: &Generator<F>,
) -> Result<Marks, NoMemory>
    requires few { length search.now.reach < 4294967296 }
    requires within { AreWithin (length search.now.reach) (length search.now.all)
        search.now.by_row }
    ensures { IfOk result (λ possible. (n : ℕ) (rows : List (List ℚ))
        (generators : List (Generator F)) (minus : Generator F) (place : ℕ)
        → IsIndexed generators search.now → AreTwoLive F.value n rows generators plus.now minus
        → ContainsAll search.now.reach minus.tight → place < length generators
        → minus ≡ get_or generators place minus → IsFalse (has possible place)
        → is_uncovered_live rows (live_of F.value generators) (pair_of F.value plus.now minus)
        ≡ false) }
{
    let mut possible = Marks::meet(alloc, &search.all, &search.all)?;
    let Some(sets) = &search.by_row else {
        return Ok(possible);
    };
    let shared = Marks::meet(alloc, &search.reach, &plus.tight)?;
    let least = plus.vector.len().saturating_sub(2);
    let mut any = Marks::new(alloc, search.all.bound())?;
    narrow(sets.as_slice(), &shared, least, &mut any, &mut possible);
    Ok(possible)
}

/// Takes from a set of places those at which not all of some rows are tight.
fn keep_common(sets: &[Marks], common: &Marks, thirds: &mut Marks)
    requires few { length common.now < 4294967296 }
    requires inside { length common.now ≤ length sets.now }
    ensures bound { length thirds.new ≡ length thirds.old }
    ensures thirds { (place : ℕ) (tight : List Bool) → HasPlace sets.now common.now tight place
        → ContainsAll tight common.now → IsTrue (has thirds.old place)
        → IsTrue (has thirds.new place) }
{
    let mut from = 0;
    while let Some(r) = common.next_from(from) {
        thirds.keep(&sets[r as usize]);
        from = r + 1;
    }
}

/// The places of the generators at which all of some rows are tight; those of all generators where
/// the search has no sets.
pub fn thirds_of(alloc: Global, search: &Search, common: &Marks) -> Result<Marks, NoMemory>
    requires few { length common.now < 4294967296 }
    requires within { AreWithin (length common.now) (length search.now.all) search.now.by_row }
    ensures bound { IfOk result (λ thirds. length thirds ≡ length search.now.all) }
    ensures thirds { IfOk result (λ thirds. (place : ℕ) (tight : List Bool)
        → HasPlaceIn search.now.by_row common.now tight place → ContainsAll tight common.now
        → IsTrue (has search.now.all place) → IsTrue (has thirds place)) }
{
    let mut thirds = Marks::meet(alloc, &search.all, &search.all)?;
    let Some(sets) = &search.by_row else {
        return Ok(thirds);
    };
    keep_common(sets.as_slice(), common, &mut thirds);
    Ok(thirds)
}
