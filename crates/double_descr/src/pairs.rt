//! Opposite pairs of generators, and the new generators between them.
ghost use Rattle.std.specs.Prelude.{◌≡◌, ◌<◌, ◌≤◌, ◌+◌, ◌||◌, ℕ, List, All, IfOk, IsFalse, IsTrue, false, length, not, nat_eq};
ghost use Rattle.incid_sets.specs.Marks.{has, size, ContainsAll, IsMeet};
ghost use Rattle.exact_field.specs.Rational.{ℚ};
ghost use Rattle.polyhedra.specs.DoubleDescription.{covers};
ghost use Rattle.polyhedra.specs.LiveList.{is_uncovered_live};
ghost use Rattle.double_descr.specs.ByRow.{tight_at, IsIndexed};
ghost use Rattle.double_descr.specs.State.{AreTwoLive, HasTightSet, live_of, pair_of};
ghost use Rattle.double_descr.specs.Steps.{values};

use crate::by_row::{Search, thirds_of};
use crate::generator::Generator;
use exact_field::Field;
use incid_sets::Marks;
use src_sink::NoMemory;
use std::alloc::Global;

/// Whether the generator is one of the pair.
fn is_one_of<F: Field>(third: &Generator<F>, plus: &Generator<F>, minus: &Generator<F>) -> bool
    ensures { result
        ≡ (nat_eq third.now.number plus.now.number || nat_eq third.now.number minus.now.number) }
{
    third.number == plus.number || third.number == minus.number
}

/// Whether the generator is a third one that covers the pair, from the rows that are tight at both.
fn covers_pair<F: Field>(
    third: &Generator<F>,
    plus: &Generator<F>,
    minus: &Generator<F>,
    common: &Marks,
) -> bool
    ensures { (rows : List (List ℚ)) → HasTightSet F.value rows third.now
        → HasTightSet F.value rows plus.now → HasTightSet F.value rows minus.now
        → IsMeet common.now plus.now.tight minus.now.tight
        → not result
        ≡ (nat_eq third.now.number plus.now.number || nat_eq third.now.number minus.now.number
        || not (covers rows (values F.value plus.now.vector.items)
        (values F.value minus.now.vector.items)
        (values F.value third.now.vector.items))) }
{
    if !third.tight.contains_all(common) {
        return false;
    }
    !is_one_of(third, plus, minus)
}

/// Whether no third generator covers the pair: of those in the places at which all common rows are
/// tight, as others do not. The one that covered last is tried first.
fn is_uncovered<F: Field>(
    generators: &[Generator<F>],
    thirds: &Marks,
    plus: &Generator<F>,
    minus: &Generator<F>,
    common: &Marks,
    last: &mut usize,
) -> bool
    requires bound { length thirds.now ≡ length generators.now }
    requires few { length generators.now < 4294967296 }
    requires thirds { (place : ℕ) → place < length generators.now
        → ContainsAll (tight_at generators.now place) common.now
        → IsTrue (has thirds.now place) }
    ensures { (rows : List (List ℚ)) → All (HasTightSet F.value rows) generators.now
        → HasTightSet F.value rows plus.now → HasTightSet F.value rows minus.now
        → IsMeet common.now plus.now.tight minus.now.tight
        → result
        ≡ is_uncovered_live rows (live_of F.value generators.now)
        (pair_of F.value plus.now minus.now) }
{
    if *last < generators.len() {
        let third = &generators[*last];
        if covers_pair(third, plus, minus, common) {
            return false;
        }
    }
    let mut from = 0;
    while let Some(i) = thirds.next_from(from) {
        let third = &generators[i as usize];
        if covers_pair(third, plus, minus, common) {
            *last = i as usize;
            return false;
        }
        from = i + 1;
    }
    true
}

/// Whether at most so many rows, and one, are tight at the generator.
fn has_one_more<F: Field>(generator: &Generator<F>, count: u32) -> bool
    ensures { IsTrue result → size generator.now.tight ≤ count + 1 }
{
    !generator.tight.has_at_least(count.saturating_add(2))
}

/// Whether at least as many of these rows are tight at the generator as the width less 2. Where
/// there are fewer, a third one covers each pair of it with one at which no others are tight.
pub fn meets_enough<F: Field>(plus: &Generator<F>, rows: &Marks) -> bool
    ensures { (n : ℕ) (all : List (List ℚ)) (generators : List (Generator F)) (minus : Generator F)
        → AreTwoLive F.value n all generators plus.now minus → ContainsAll rows.now minus.tight
        → IsFalse result
        → is_uncovered_live all (live_of F.value generators) (pair_of F.value plus.now minus)
        ≡ false }
{
    let least = plus.vector.len().saturating_sub(2);
    plus.tight.shares(rows, least)
}

/// Whether no third generator covers the pair. None does where at most one tight row of either is
/// not tight at the other; so many pairs need no search.
pub fn are_adjacent<F: Field>(
    alloc: Global,
    search: &Search,
    generators: &[Generator<F>],
    plus: &Generator<F>,
    minus: &Generator<F>,
    common: &Marks,
    last: &mut usize,
) -> Result<bool, NoMemory>
    requires search { IsIndexed generators.now search.now }
    requires few { length generators.now < 4294967296 }
    requires same { length common.now ≡ length search.now.reach }
    requires rows { length common.now < 4294967296 }
    requires reached { ContainsAll search.now.reach common.now }
    ensures { IfOk result (λ answer. (n : ℕ) (rows : List (List ℚ))
        → AreTwoLive F.value n rows generators.now plus.now minus.now
        → IsMeet common.now plus.now.tight minus.now.tight
        → answer
        ≡ is_uncovered_live rows (live_of F.value generators.now)
        (pair_of F.value plus.now minus.now)) }
{
    let count = common.count();
    if has_one_more(plus, count) {
        return Ok(true);
    }
    if has_one_more(minus, count) {
        return Ok(true);
    }
    let thirds = thirds_of(alloc, search, common)?;
    Ok(is_uncovered(generators, &thirds, plus, minus, common, last))
}
