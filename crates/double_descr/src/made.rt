//! The new generators of an addition.
ghost use Rattle.std.specs.Prelude.{◌≡◌, ◌≢◌, ◌+◌, ◌<◌, ◌++◌, List, [], ◌∷◌, IfErr, OnOk, get_or, length, map};
ghost use Rattle.exact_field.specs.Rational.{zero_ℚ, ◌<ℚ◌};
ghost use Rattle.incid_sets.specs.Marks.{ContainsAll};
ghost use Rattle.polyhedra.specs.DoubleDescription.{norming};
ghost use Rattle.polyhedra.specs.LiveList.{LivePair, is_uncovered_live};
ghost use Rattle.double_descr.specs.Adding.{IsAddFault, block_of};
ghost use Rattle.double_descr.specs.Making.{Addition, IsMadeSoFar, IsMaking, IsPairFault, IsPlus, IsSearch, IsTried, LeavesOutCovered, blocks_of_pairs, candidates_from, negative_places, pair_at, with_negatives};
ghost use Rattle.double_descr.specs.State.{AreTwoLive, live_of, numbered_of, pair_of};
ghost use Rattle.double_descr.specs.Steps.{between, values};

use crate::by_row::{Search, possible_places, search_of};
use crate::fault::{DdFault, Pair};
use crate::generator::{Generator, make_between};
use crate::pairs::{are_adjacent, meets_enough};
use exact_field::{Field, is_positive};
use incid_sets::Marks;
use src_sink::{Items, MOST_ITEMS};
use std::alloc::Global;

/// The pairs of an addition so far, with their new generators.
#[derive(Debug, Drop)]
pub struct Made<F: Drop> {
    /// The pairs so far, by the numbers of their generators.
    pub pairs: Items<Pair>,
    /// The new generator of each pair.
    pub generators: Items<Generator<F>>,
    /// Where the common tight rows of a pair are written.
    pub common: Marks,
    /// The place of the generator that covered last.
    pub last: usize,
    /// The number of the first new generator.
    pub first_new: u32,
}

/// Makes the new generator of an opposite pair, unless a third one covers it.
fn try_pair<F: Field>(
    alloc: Global,
    search: &Search,
    generators: &[Generator<F>],
    plus: &Generator<F>,
    minus: &Generator<F>,
    at_plus: F,
    at_minus: F,
    so_far: &mut Made<F>,
) -> Result<(), DdFault<F>>
    ghost addition: { Addition }
    requires two { AreTwoLive F.value (length addition.row) addition.rows generators.now
        plus.now minus.now }
    requires narrow { length addition.row < 4294967296 }
    requires room { length addition.rows + 1 < 4294967296 }
    requires common { length so_far.old.common ≡ length addition.rows }
    requires below { F.value at_minus <ℚ zero_ℚ }
    requires search { IsSearch F.value addition generators.now search.now }
    requires few { length generators.now < 4294967296 }
    requires reached { ContainsAll search.now.reach minus.now.tight }
    requires not_zero { norming (between (F.value at_plus) (F.value at_minus)
        (values F.value plus.now.vector.items) (values F.value minus.now.vector.items))
        ≢ zero_ℚ }
    ensures from { so_far.new.first_new ≡ so_far.old.first_new }
    ensures bound { length so_far.new.common ≡ length so_far.old.common }
    ensures ok { OnOk result (IsTried F.value F.holds (is_uncovered_live addition.rows
        (live_of F.value generators.now) (pair_of F.value plus.now minus.now)) plus.now
        minus.now (F.value at_plus) (F.value at_minus) so_far.old so_far.new) }
    ensures left { IfErr result (IsPairFault F.value F.holds (is_uncovered_live addition.rows
        (live_of F.value generators.now) (pair_of F.value plus.now minus.now))
        (block_of F.value plus.now minus.now (F.value at_plus) (F.value at_minus))) }
{
    so_far.common.set_meet(&plus.tight, &minus.tight);
    let is_pair = are_adjacent(
        alloc,
        search,
        generators,
        plus,
        minus,
        &so_far.common,
        &mut so_far.last,
    )?;
    if !is_pair {
        return Ok(());
    }
    if so_far.first_new as usize + so_far.pairs.len() > MOST_ITEMS {
        return Err(DdFault::NoMemory);
    }
    let number = so_far.first_new + so_far.pairs.len() as u32;
    let generator = make_between(alloc, plus, minus, at_plus, at_minus, number)?;
    so_far.generators.push(generator)?;
    so_far.pairs.push(Pair {
        plus: plus.number,
        minus: minus.number,
    })?;
    Ok(())
}

/// Makes the new generator of one generator, at which the row is positive, with generator `j`, at
/// which it is negative. Most pairs have too few common rows, and nothing of them is read.
fn meet_at<F: Field>(
    alloc: Global,
    search: &Search,
    possible: &Marks,
    generators: &[Generator<F>],
    values: &[F],
    plus: &Generator<F>,
    at_plus: F,
    j: usize,
    so_far: &mut Made<F>,
) -> Result<(), DdFault<F>>
    ghost addition: { Addition }
    requires plus { IsPlus F.value addition generators.now values.now plus.now at_plus }
    requires same { length values.now ≡ length generators.now }
    requires common { length so_far.old.common ≡ length addition.rows }
    requires inside { j < length generators.now }
    requires below { get_or (map F.value values.now) j zero_ℚ <ℚ zero_ℚ }
    requires search { IsSearch F.value addition generators.now search.now }
    requires possible { LeavesOutCovered F.value addition generators.now plus.now possible.now }
    ensures bound { length so_far.new.common ≡ length so_far.old.common }
    ensures ok { (left : List LivePair)
        → IsMadeSoFar F.value F.holds addition generators.now
        (pair_at F.value generators.now plus.now j ∷ left) so_far.old
        → OnOk result (IsMadeSoFar F.value F.holds addition generators.now left so_far.new) }
    ensures left { (left : List LivePair)
        → IsMadeSoFar F.value F.holds addition generators.now
        (pair_at F.value generators.now plus.now j ∷ left) so_far.old
        → IfErr result (IsAddFault F.value F.holds
        (blocks_of_pairs F.value addition generators.now)) }
{
    if !possible.has(j as u32) {
        return Ok(());
    }
    let minus = &generators[j];
    if !meets_enough(plus, &minus.tight) {
        return Ok(());
    }
    try_pair(
        alloc, search, generators, plus, minus, at_plus, values[j], so_far,
    )
}

/// Makes the new generators of one generator at which the row is positive, with each at which it is
/// negative, from their places.
fn meet_with<F: Field>(
    alloc: Global,
    search: &Search,
    generators: &[Generator<F>],
    values: &[F],
    plus: &Generator<F>,
    at_plus: F,
    below: &[usize],
    so_far: &mut Made<F>,
) -> Result<(), DdFault<F>>
    ghost addition: { Addition }
    requires plus { IsPlus F.value addition generators.now values.now plus.now at_plus }
    requires same { length values.now ≡ length generators.now }
    requires places { below.now ≡ negative_places 0 (map F.value values.now) }
    requires common { length so_far.old.common ≡ length addition.rows }
    requires search { IsSearch F.value addition generators.now search.now }
    ensures ok { (left : List LivePair)
        → IsMadeSoFar F.value F.holds addition generators.now (with_negatives addition.row
        (numbered_of F.value plus.now) (live_of F.value generators.now) ++ left) so_far.old
        → OnOk result (IsMadeSoFar F.value F.holds addition generators.now left so_far.new) }
    ensures left { (left : List LivePair)
        → IsMadeSoFar F.value F.holds addition generators.now (with_negatives addition.row
        (numbered_of F.value plus.now) (live_of F.value generators.now) ++ left) so_far.old
        → IfErr result (IsAddFault F.value F.holds
        (blocks_of_pairs F.value addition generators.now)) }
{
    let possible = possible_places(alloc, search, plus)?;
    for j in below {
        meet_at(
            alloc, search, &possible, generators, values, plus, at_plus, *j, so_far,
        )?;
    }
    Ok(())
}

/// Makes the new generators of generator `i`, if the row is positive there. Most have too few rows
/// in common with all at which it is negative, and no pair of these is read.
fn try_plus<F: Field>(
    alloc: Global,
    generators: &[Generator<F>],
    values: &[F],
    below: &[usize],
    search: &Search,
    i: usize,
    so_far: &mut Made<F>,
) -> Result<(), DdFault<F>>
    ghost addition: { Addition }
    requires making { IsMaking F.value addition generators.now values.now below.now }
    requires search { IsSearch F.value addition generators.now search.now }
    requires same { length values.now ≡ length generators.now }
    requires inside { i < length generators.now }
    requires so_far { IsMadeSoFar F.value F.holds addition generators.now
        (candidates_from F.value addition generators.now i) so_far.old }
    ensures ok { OnOk result (IsMadeSoFar F.value F.holds addition generators.now
        (candidates_from F.value addition generators.now (i + 1)) so_far.new) }
    ensures left { IfErr result (IsAddFault F.value F.holds
        (blocks_of_pairs F.value addition generators.now)) }
{
    let plus = &generators[i];
    let at_plus = values[i];
    if !is_positive(at_plus) {
        return Ok(());
    }
    if !meets_enough(plus, &search.reach) {
        return Ok(());
    }
    meet_with(
        alloc, search, generators, values, plus, at_plus, below, so_far,
    )
}

/// Makes all new generators of an addition, from the values of the row at the live generators, and
/// the places of those below 0. The cost is at the worst that of the opposite pairs times the rows
/// that are tight at both times the words of a set of places. Most pairs have too few common tight
/// rows; of these a bit is read, and nothing of those of a generator that no pair is left for.
pub fn meet_all<F: Field>(
    alloc: Global,
    generators: &[Generator<F>],
    values: &[F],
    below: &[usize],
    so_far: &mut Made<F>,
) -> Result<(), DdFault<F>>
    ghost addition: { Addition }
    requires making { IsMaking F.value addition generators.now values.now below.now }
    requires same { length values.now ≡ length generators.now }
    requires so_far { IsMadeSoFar F.value F.holds addition generators.now
        (candidates_from F.value addition generators.now 0) so_far.old }
    ensures ok { OnOk result
        (IsMadeSoFar F.value F.holds addition generators.now [] so_far.new) }
    ensures left { IfErr result (IsAddFault F.value F.holds
        (blocks_of_pairs F.value addition generators.now)) }
{
    if below.is_empty() {
        return Ok(());
    }
    let search = search_of(
        alloc,
        so_far.common.bound(),
        generators,
        values,
        below.len(),
    )?;
    for i in 0..generators.len() {
        try_plus(alloc, generators, values, below, &search, i, so_far)?;
    }
    Ok(())
}
