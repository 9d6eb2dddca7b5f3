//! The least hints of the opposite pairs that an addition does not list.
ghost use Rattle.std.specs.Prelude.{◌≡◌, ℕ, List, All, Contains, [], ◌∷◌, OnOk, IfOk, length, map};
ghost use Rattle.exact_field.specs.Rational.{ℚ};
ghost use Rattle.incid_sets.specs.Marks.{IsMeet};
ghost use Rattle.log_live.specs.Adding.{negatives_of, pair_of};
ghost use Rattle.log_live.specs.Hinting.{Tells, hints_along, pairs_beside, pairs_beside_at};
ghost use Rattle.log_live.specs.Live.{HasTightSet, live_of, numbered_of};
ghost use Rattle.log_live.specs.declared.generator.Generator.{Generator};
ghost use Rattle.log_rules.specs.Live.{value};
ghost use Rattle.log_versions.specs.Hints.{first_cover as least_cover, opposite_pairs};

use crate::generator::Generator;
use crate::matching::{is_next, negative_generators};
use crate::pairs::covers_pair;
use deriv_log::LogPair;
use exact_field::is_positive;
use frac128::Frac;
use incid_sets::Marks;
use src_sink::{Items, NoMemory};
use std::alloc::Global;

/// How far the pairs of an addition were met, and the hints of the others.
#[derive(Debug, Drop)]
pub struct Telling {
    /// How many listed pairs were met.
    pub listed: usize,
    /// A hint for each other pair so far.
    pub hints: Items<u32>,
    /// Where the common tight rows of a pair are written.
    pub common: Marks,
}

/// The number of the first generator that covers the pair, and 0 where none does.
fn first_cover(generators: &[Generator], plus: &Generator, minus: &Generator, common: &Marks) -> u32
    ensures { (rows : List (List ℚ)) → All (HasTightSet rows) generators.now
        → HasTightSet rows plus.now → HasTightSet rows minus.now
        → IsMeet common.now plus.now.tight minus.now.tight
        → result ≡ least_cover rows (pair_of plus.now minus.now) (live_of generators.now) }
{
    for third in generators {
        if covers_pair(third, plus, minus, common) {
            return third.number;
        }
    }
    0
}

/// Tells the hint of a pair of two generators, if it is not the next listed one.
fn tell_pair(
    generators: &[Generator],
    plus: &Generator,
    minus: &Generator,
    pairs: &[LogPair],
    telling: &mut Telling,
) -> Result<(), NoMemory>
    requires plus { length telling.old.common ≡ length plus.now.tight }
    requires minus { length telling.old.common ≡ length minus.now.tight }
    ensures common { length telling.new.common ≡ length telling.old.common }
    ensures tells { (rows : List (List ℚ)) → All (HasTightSet rows) generators.now
        → HasTightSet rows plus.now → HasTightSet rows minus.now
        → OnOk result
        (Tells rows (live_of generators.now) pairs.now telling.old telling.new
        (pair_of plus.now minus.now ∷ [])) }
{
    if is_next(pairs, telling.listed, plus.number, minus.number) {
        telling.listed += 1;
        return Ok(());
    }
    telling.common.set_meet(&plus.tight, &minus.tight);
    let hint = first_cover(generators, plus, minus, &telling.common);
    telling.hints.push(hint)?;
    Ok(())
}

/// Tells the hints of the pairs of a generator at which the row is positive with those at which it
/// is negative.
fn tell_with(
    generators: &[Generator],
    plus: &Generator,
    negatives: &[&Generator],
    pairs: &[LogPair],
    telling: &mut Telling,
) -> Result<(), NoMemory>
    requires plus { length telling.old.common ≡ length plus.now.tight }
    requires bounds { All (λ g. length g.now.tight ≡ length plus.now.tight) negatives.now }
    ensures common { length telling.new.common ≡ length telling.old.common }
    ensures tells { (rows : List (List ℚ)) → All (HasTightSet rows) generators.now
        → HasTightSet rows plus.now → All (λ g. HasTightSet rows g.now) negatives.now
        → OnOk result
        (Tells rows (live_of generators.now) pairs.now telling.old telling.new
        (pairs_beside (numbered_of plus.now) (map (λ g. numbered_of g.now) negatives.now))) }
{
    for minus in negatives {
        tell_pair(generators, plus, minus, pairs, telling)?;
    }
    Ok(())
}

/// Tells the hints of the pairs of one generator, if the row is positive there.
fn tell_at(
    generators: &[Generator],
    plus: &Generator,
    at_plus: Frac,
    negatives: &[&Generator],
    pairs: &[LogPair],
    telling: &mut Telling,
) -> Result<(), NoMemory>
    requires plus { length telling.old.common ≡ length plus.now.tight }
    requires bounds { All (λ g. length g.now.tight ≡ length plus.now.tight) negatives.now }
    ensures common { length telling.new.common ≡ length telling.old.common }
    ensures tells { (rows : List (List ℚ)) (row : List ℚ) → All (HasTightSet rows) generators.now
        → HasTightSet rows plus.now → All (λ g. HasTightSet rows g.now) negatives.now
        → at_plus ≡ value row (numbered_of plus.now)
        → map (λ g. numbered_of g.now) negatives.now ≡ negatives_of row (live_of generators.now)
        → OnOk result
        (Tells rows (live_of generators.now) pairs.now telling.old telling.new
        (pairs_beside_at row (live_of generators.now) (numbered_of plus.now))) }
{
    if !is_positive(at_plus) {
        return Ok(());
    }
    tell_with(generators, plus, negatives, pairs, telling)
}

/// The least hints of the opposite pairs that are not the next listed one when their turn comes. It
/// costs the opposite pairs times the places of the generators that cover them.
pub fn tell_hints(
    alloc: Global,
    generators: &[Generator],
    values: &[Frac],
    pairs: &[LogPair],
    common: Marks,
) -> Result<Items<u32>, NoMemory>
    requires values { length values.now ≡ length generators.now }
    requires bounds { All (λ g. length g.tight ≡ length common) generators.now }
    ensures { (rows : List (List ℚ)) (row : List ℚ) → All (HasTightSet rows) generators.now
        → values.now ≡ map (λ g. value row (numbered_of g)) generators.now
        → IfOk result (λ hints. hints ≡ hints_along rows (live_of generators.now)
        (opposite_pairs (live_of generators.now) row) pairs.now) }
{
    let negatives = negative_generators(alloc, generators, values)?;
    let mut telling = Telling {
        listed: 0,
        hints: Items::new(alloc),
        common,
    };
    for (i, generator) in generators.iter().enumerate() {
        tell_at(
            generators,
            generator,
            values[i],
            negatives.as_slice(),
            pairs,
            &mut telling,
        )?;
    }
    let Telling {
        listed: _,
        hints,
        common: _,
    } = telling;
    Ok(hints)
}
