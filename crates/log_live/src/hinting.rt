//! The pairs and hints of an `addh` entry against what its row asks for.
ghost use Rattle.std.specs.Prelude.{◌≡◌, ◌<◌, ◌&&◌, ℕ, nat_le, List, All, AllPairs, [], ◌∷◌, true, length, map, Contains, IfOk, IfSome, IfNone, Some, None, slice_index_or};
ghost use Rattle.exact_field.specs.Rational.{ℚ};
ghost use Rattle.incid_sets.specs.Marks.{IsMeet};
ghost use Rattle.log_live.specs.Adding.{AreAtPairs, AreTwo, negatives_of, pair_of};
ghost use Rattle.log_live.specs.Hinting.{Walks, pairs_beside, pairs_beside_at};
ghost use Rattle.log_live.specs.Live.{HasTightSet, live_of, numbered_of};
ghost use Rattle.log_live.specs.declared.generator.Generator.{Generator};
ghost use Rattle.log_rules.specs.Live.{value, find as numbered};
ghost use Rattle.log_versions.specs.Hints.{is_hint, opposite_pairs};
ghost use Rattle.log_versions.specs.Walk.{all_hinted, all_listed, walk};

use crate::generator::{Generator, find};
use crate::matching::{is_next, negative_generators};
use crate::pairs::{are_adjacent, covers_pair};
use deriv_log::LogPair;
use exact_field::is_positive;
use frac128::Frac;
use incid_sets::Marks;
use src_sink::NoMemory;
use std::alloc::Global;

/// How far the pairs and the hints of an entry were met, with what the tests of third generators
/// need.
#[derive(Debug, Drop)]
pub struct Meeting {
    /// How many listed pairs were met.
    pub listed: usize,
    /// How many hints were used.
    pub hinted: usize,
    /// Whether they were right.
    pub right: bool,
    /// Where the common tight rows of a pair are written.
    pub common: Marks,
    /// How many there are at least.
    pub least: usize,
    /// The place of the generator that covered last.
    pub last: usize,
}

/// Whether the pairs are those that are required, and where they are, whether the hints are right.
#[derive(Clone, Copy, Debug)]
pub struct Met {
    pub listed: bool,
    pub hinted: bool,
}

/// The place of the live generator of this number, where there is one. The place of the one before
/// is tried first.
fn place_near(generators: &[Generator], number: u32, last: usize) -> Option<usize>
    requires { AllPairs (λ g h. g.number < h.number) generators.now }
    ensures some { IfSome result (λ i. (i < length generators.now) × ((d : Generator)
        → numbered (live_of generators.now) number
        ≡ Some (numbered_of (slice_index_or generators.now i d)))) }
    ensures none { IfNone result (numbered (live_of generators.now) number ≡ None) }
{
    if last < generators.len() && generators[last].number == number {
        return Some(last);
    }
    find(generators, number)
}

/// Whether the generator of this number is a live one other than the two that covers them.
fn covers_both(
    generators: &[Generator],
    plus: &Generator,
    minus: &Generator,
    number: u32,
    common: &Marks,
    last: &mut usize,
) -> bool
    requires rises { AllPairs (λ g h. g.number < h.number) generators.now }
    ensures { (rows : List (List ℚ)) → All (HasTightSet rows) generators.now
        → HasTightSet rows plus.now → HasTightSet rows minus.now
        → IsMeet common.now plus.now.tight minus.now.tight
        → result ≡ is_hint rows (live_of generators.now) (pair_of plus.now minus.now) number }
{
    match place_near(generators, number, *last) {
        Some(place) => {
            *last = place;
            covers_pair(&generators[place], plus, minus, common)
        }
        None => false,
    }
}

/// Whether the hints were right, with one more.
fn still_right(right: bool, covers: bool) -> bool
    ensures { result ≡ (right && covers) }
{
    if !right {
        return false;
    }
    covers
}

/// Whether the hints were right, and none is left.
fn are_used_up(right: bool, hinted: usize, hints: &[u32]) -> bool
    ensures { result ≡ (right && nat_le (length hints.now) hinted) }
{
    if !right {
        return false;
    }
    hinted >= hints.len()
}

/// Meets a pair of two generators: the next listed one must be covered by no third one, and another
/// takes the next hint.
fn meet_pair(
    generators: &[Generator],
    plus: &Generator,
    minus: &Generator,
    pairs: &[LogPair],
    hints: &[u32],
    meeting: &mut Meeting,
) -> bool
    requires rises { AllPairs (λ g h. g.number < h.number) generators.now }
    requires plus { length meeting.old.common ≡ length plus.now.tight }
    requires minus { length meeting.old.common ≡ length minus.now.tight }
    ensures common { length meeting.new.common ≡ length meeting.old.common }
    ensures least { meeting.new.least ≡ meeting.old.least }
    ensures walks { (q : ℕ) (rows : List (List ℚ))
        → AreAtPairs q meeting.old.least rows generators.now
        → AreTwo generators.now plus.now minus.now
        → Walks rows (live_of generators.now) pairs.now hints.now meeting.old result meeting.new
        (pair_of plus.now minus.now ∷ []) }
{
    meeting.common.set_meet(&plus.tight, &minus.tight);
    if is_next(pairs, meeting.listed, plus.number, minus.number) {
        meeting.listed += 1;
        return are_adjacent(
            generators,
            plus,
            minus,
            &meeting.common,
            meeting.least,
            &mut meeting.last,
        );
    }
    if meeting.hinted >= hints.len() {
        meeting.right = false;
        return true;
    }
    let number = hints[meeting.hinted];
    let covers = covers_both(
        generators,
        plus,
        minus,
        number,
        &meeting.common,
        &mut meeting.last,
    );
    meeting.right = still_right(meeting.right, covers);
    meeting.hinted += 1;
    true
}

/// Meets the pairs of a generator at which the row is positive with those at which it is negative.
fn meet_with(
    generators: &[Generator],
    plus: &Generator,
    negatives: &[&Generator],
    pairs: &[LogPair],
    hints: &[u32],
    meeting: &mut Meeting,
) -> bool
    requires rises { AllPairs (λ g h. g.number < h.number) generators.now }
    requires plus { length meeting.old.common ≡ length plus.now.tight }
    requires bounds { All (λ g. length g.now.tight ≡ length plus.now.tight) negatives.now }
    ensures common { length meeting.new.common ≡ length meeting.old.common }
    ensures least { meeting.new.least ≡ meeting.old.least }
    ensures walks { (q : ℕ) (rows : List (List ℚ))
        → AreAtPairs q meeting.old.least rows generators.now
        → All (λ g. AreTwo generators.now plus.now g.now) negatives.now
        → Walks rows (live_of generators.now) pairs.now hints.now meeting.old result meeting.new
        (pairs_beside (numbered_of plus.now) (map (λ g. numbered_of g.now) negatives.now)) }
{
    for minus in negatives {
        if !meet_pair(generators, plus, minus, pairs, hints, meeting) {
            return false;
        }
    }
    true
}

/// Meets the pairs of one generator, if the row is positive there.
fn meet_at(
    generators: &[Generator],
    plus: &Generator,
    at_plus: Frac,
    negatives: &[&Generator],
    pairs: &[LogPair],
    hints: &[u32],
    meeting: &mut Meeting,
) -> bool
    requires rises { AllPairs (λ g h. g.number < h.number) generators.now }
    requires plus { length meeting.old.common ≡ length plus.now.tight }
    requires bounds { All (λ g. length g.now.tight ≡ length plus.now.tight) negatives.now }
    ensures common { length meeting.new.common ≡ length meeting.old.common }
    ensures least { meeting.new.least ≡ meeting.old.least }
    ensures walks { (q : ℕ) (rows : List (List ℚ)) (row : List ℚ)
        → AreAtPairs q meeting.old.least rows generators.now → Contains generators.now plus.now
        → All (λ g. Contains generators.now g.now) negatives.now
        → at_plus ≡ value row (numbered_of plus.now)
        → map (λ g. numbered_of g.now) negatives.now ≡ negatives_of row (live_of generators.now)
        → Walks rows (live_of generators.now) pairs.now hints.now meeting.old result meeting.new
        (pairs_beside_at row (live_of generators.now) (numbered_of plus.now)) }
{
    if !is_positive(at_plus) {
        return true;
    }
    meet_with(generators, plus, negatives, pairs, hints, meeting)
}

/// Whether the pairs of an entry are those that its row asks for, and whether its hints are right.
/// An opposite pair that is not listed costs no scan.
pub fn have_hints(
    alloc: Global,
    generators: &[Generator],
    values: &[Frac],
    pairs: &[LogPair],
    hints: &[u32],
    common: Marks,
    least: usize,
) -> Result<Met, NoMemory>
    requires rises { AllPairs (λ g h. g.number < h.number) generators.now }
    requires values { length values.now ≡ length generators.now }
    requires bounds { All (λ g. length g.tight ≡ length common) generators.now }
    ensures listed { (q : ℕ) (rows : List (List ℚ)) (row : List ℚ)
        → AreAtPairs q least rows generators.now
        → values.now ≡ map (λ g. value row (numbered_of g)) generators.now
        → IfOk result (λ met. met.listed ≡ all_listed (walk rows (live_of generators.now)
        (opposite_pairs (live_of generators.now) row) pairs.now hints.now true)) }
    ensures hinted { (q : ℕ) (rows : List (List ℚ)) (row : List ℚ)
        → AreAtPairs q least rows generators.now
        → values.now ≡ map (λ g. value row (numbered_of g)) generators.now
        → IfOk result (λ met. met.listed ≡ true
        → met.hinted ≡ all_hinted (walk rows (live_of generators.now)
        (opposite_pairs (live_of generators.now) row) pairs.now hints.now true)) }
{
    let negatives = negative_generators(alloc, generators, values)?;
    let mut meeting = Meeting {
        listed: 0,
        hinted: 0,
        right: true,
        common,
        least,
        last: 0,
    };
    for (i, generator) in generators.iter().enumerate() {
        if !meet_at(
            generators,
            generator,
            values[i],
            negatives.as_slice(),
            pairs,
            hints,
            &mut meeting,
        ) {
            return Ok(Met {
                listed: false,
                hinted: false,
            });
        }
    }
    Ok(Met {
        listed: meeting.listed >= pairs.len(),
        hinted: are_used_up(meeting.right, meeting.hinted, hints),
    })
}
