//! An `add` entry: the values of a row, its pairs, and the new generators.
ghost use Rattle.std.specs.Prelude.{◌≡◌, ◌≢◌, ⊤, ◌+◌, ◌*◌, ◌^◌, ◌<◌, ◌≤◌, ℕ, List, All, Contains, IfOk, [], ◌∷◌, length};
ghost use Rattle.std.specs.List.{flat_map};
ghost use Rattle.exact_field.specs.Rational.{ℚ, zero_ℚ, neg_ℚ, ◌/ℚ◌};
ghost use Rattle.frac128.specs.Held.{is_held};
ghost use Rattle.log_rules.specs.Events.{dot_steps};
ghost use Rattle.log_rules.specs.Events.Event.{test};
ghost use Rattle.log_rules.specs.Live.{required_pairs};
ghost use Rattle.log_rules.specs.LiveEvents.{meeting_point, same_pairs};
ghost use Rattle.log_rules.specs.Runs.{Runs, RunsAll, steps};
ghost use Rattle.log_rules.specs.declared.rule.Rule.TheVariants as rule;
ghost use Rattle.log_live.specs.Adding.{AreNew, IsBetween, pair_named};
ghost use Rattle.log_live.specs.Live.{live_of};
ghost use Rattle.polyhedra.specs.DoubleDescription.{norming as norming_of};
ghost use Rattle.polyhedra.specs.LiveList.{LivePair, live_pairs};
ghost use Rattle.rep_conv.specs.Adding.{AreAtRow, IsChange, between_steps, quotients, values_at};
ghost use Rattle.rep_conv.specs.Events.{added_events, pair_of};

use crate::start::norming_entry;
use entry_checks::{Steps, append, magnitude, pass};
use exact_field::Field;
use frac128::{Frac, Vector};
use log_live::{
    Generator, common_and_next, divide, has_pairs, least_common, no_rows, number_after, place_of,
    point_between,
};
use log_rules::{Rule, Stop};
use src_sink::{Items, NoMemory};
use std::alloc::Global;
use word_lines::LogPair;

/// What an `add` entry changes.
#[derive(Debug, Drop)]
pub struct Change {
    /// The values of the row at the live generators.
    pub values: Items<Frac>,
    /// The new generators, one for each pair.
    pub made: Vec<Generator>,
    /// The number that the next new one gets.
    pub next: u32,
}

/// The values of a row at the generators. They cost the entries of them all.
fn values_of(
    alloc: Global,
    counter: &mut Steps,
    row: &[Frac],
    generators: &[Generator],
) -> Result<Items<Frac>, Stop>
    requires widths { All (λ g. length row.now ≡ length g.vector) generators.now }
    requires room { counter.old.taken
        + steps (flat_map (λ g. dot_steps row.now g.vector) generators.now) < 2 ^ 63 }
    ensures { Runs is_held (flat_map (λ g. dot_steps row.now g.vector) generators.now)
        counter.old.taken counter.new.taken
        (λ values. values ≡ values_at row.now generators.now) result }
{
    let mut values = Items::new(alloc);
    for generator in generators {
        let value = counter.dot(row, generator.vector.as_slice())?;
        append(&mut values, value)?;
    }
    Ok(values)
}

/// Whether the pairs are those that a row with these values asks for.
fn are_asked(
    alloc: Global,
    generators: &[Generator],
    values: &[Frac],
    pairs: &[LogPair],
) -> Result<bool, NoMemory>
    requires { (width : ℕ) × (rows : List (List ℚ)) × (row : List ℚ)
        × AreAtRow width rows row generators.now × (values.now ≡ values_at row generators.now) }
    ensures { (width : ℕ) (rows : List (List ℚ)) (row : List ℚ)
        → AreAtRow width rows row generators.now → values.now ≡ values_at row generators.now
        → IfOk result (λ answer. answer
        ≡ same_pairs pairs.now (required_pairs rows (live_of generators.now) row)) }
{
    let common = no_rows(alloc, generators)?;
    let least = least_common(generators);
    has_pairs(alloc, generators, values, pairs, common, least)
}

/// The test that the pairs are those that a row with these values asks for.
fn test_pairs(
    alloc: Global,
    generators: &[Generator],
    values: &[Frac],
    pairs: &[LogPair],
) -> Result<(), Stop>
    requires { (width : ℕ) × (rows : List (List ℚ)) × (row : List ℚ)
        × AreAtRow width rows row generators.now × (values.now ≡ values_at row generators.now) }
    ensures { (width : ℕ) (rows : List (List ℚ)) (row : List ℚ) (taken : ℕ)
        → AreAtRow width rows row generators.now → values.now ≡ values_at row generators.now
        → Runs is_held
        (test rule.Pairs (same_pairs pairs.now (required_pairs rows (live_of generators.now) row))
        ∷ [])
        taken taken (λ _. ⊤) result }
{
    match are_asked(alloc, generators, values, pairs) {
        Ok(asked) => pass(Rule::Pairs, asked),
        Err(_) => Err(Stop::NoMemory),
    }
}

/// The entries of the new generator between two, from the row's values at them.
fn new_vector(
    alloc: Global,
    counter: &mut Steps,
    at_plus: Frac,
    at_minus: Frac,
    plus: &[Frac],
    minus: &[Frac],
) -> Result<Vector, Stop>
    requires widths { length plus.now ≡ length minus.now }
    requires below { neg_ℚ at_minus ≢ zero_ℚ }
    requires not_zero { norming_of (meeting_point (at_plus /ℚ neg_ℚ at_minus) plus.now minus.now)
        ≢ zero_ℚ }
    requires room { counter.old.taken
        + steps (between_steps at_plus at_minus plus.now minus.now) < 2 ^ 63 }
    ensures { Runs is_held (between_steps at_plus at_minus plus.now minus.now) counter.old.taken
        counter.new.taken
        (λ v. v ≡ quotients (meeting_point (at_plus /ℚ neg_ℚ at_minus) plus.now minus.now)) result }
{
    let k = counter.div(at_plus, at_minus.neg())?;
    let sum = point_between(alloc, counter, k, plus, minus)?;
    let z = sum.as_slice();
    let by = magnitude(norming_entry(z));
    divide(alloc, counter, by, z)
}

/// The new generator of a required pair.
fn new_generator(
    alloc: Global,
    counter: &mut Steps,
    generators: &[Generator],
    values: &[Frac],
    pair: LogPair,
    number: u32,
) -> Result<Generator, Stop>
    requires pair { (width : ℕ) × (rows : List (List ℚ)) × (row : List ℚ) × (named : LivePair)
        × AreAtRow width rows row generators.now × (values.now ≡ values_at row generators.now)
        × Contains (live_pairs rows (live_of generators.now) row) named
        × (pair ≡ pair_named named) }
    requires room { counter.old.taken + 400000 < 2 ^ 63 }
    ensures { (width : ℕ) (rows : List (List ℚ)) (row : List ℚ) (named : LivePair)
        → AreAtRow width rows row generators.now → values.now ≡ values_at row generators.now
        → Contains (live_pairs rows (live_of generators.now) row) named → pair ≡ pair_named named
        → Runs is_held (pair_of row (live_of generators.now) pair) counter.old.taken
        counter.new.taken (IsBetween rows row named number) result }
{
    let at_plus = place_of(generators, pair.plus);
    let at_minus = place_of(generators, pair.minus);
    let plus = &generators[at_plus];
    let minus = &generators[at_minus];
    let vector = new_vector(
        alloc,
        counter,
        values[at_plus],
        values[at_minus],
        plus.vector.as_slice(),
        minus.vector.as_slice(),
    )?;
    let tight = common_and_next(alloc, &plus.tight, &minus.tight)?;
    Ok(Generator {
        number,
        vector,
        tight,
        pre: None,
    })
}

/// The new generators of the required pairs, under the numbers from `next` on.
fn new_generators(
    alloc: Global,
    counter: &mut Steps,
    generators: &[Generator],
    values: &[Frac],
    pairs: &[LogPair],
    next: u32,
) -> Result<Vec<Generator>, Stop>
    requires pairs { (width : ℕ) × (rows : List (List ℚ)) × (row : List ℚ)
        × AreAtRow width rows row generators.now × (values.now ≡ values_at row generators.now)
        × (pairs.now ≡ required_pairs rows (live_of generators.now) row) }
    requires room { counter.old.taken < 2 ^ 60 }
    ensures { (width : ℕ) (rows : List (List ℚ)) (row : List ℚ)
        → AreAtRow width rows row generators.now → values.now ≡ values_at row generators.now
        → pairs.now ≡ required_pairs rows (live_of generators.now) row
        → Runs is_held (flat_map (pair_of row (live_of generators.now)) pairs.now)
        counter.old.taken counter.new.taken
        (λ made. AreNew rows row (live_of generators.now) next made.items) result }
{
    let mut made = Items::new(alloc);
    for i in 0..pairs.len() {
        let number = number_after(next, i)?;
        let generator = new_generator(alloc, counter, generators, values, pairs[i], number)?;
        append(&mut made, generator)?;
    }
    Ok(made.into_vec())
}

/// What an `add` entry changes, by its events after the test of its number: the values of the row,
/// the test of the pairs, and the new generators. The cost is at the worst that of the opposite
/// pairs times the generators times the words of a tight set.
pub fn change_at(
    alloc: Global,
    generators: &[Generator],
    row: &[Frac],
    pairs: &[LogPair],
    next: u32,
) -> Result<Change, Stop>
    requires at_row { (width : ℕ) × (rows : List (List ℚ))
        × AreAtRow width rows row.now generators.now }
    ensures { (width : ℕ) (rows : List (List ℚ)) → AreAtRow width rows row.now generators.now
        → RunsAll is_held (added_events rows (live_of generators.now) row.now pairs.now)
        (IsChange rows row.now generators.now pairs.now next) result }
{
    let mut counter = Steps { taken: 0 };
    let values = values_of(alloc, &mut counter, row, generators)?;
    let at_row = values.as_slice();
    test_pairs(alloc, generators, at_row, pairs)?;
    let made = new_generators(alloc, &mut counter, generators, at_row, pairs, next)?;
    let after = number_after(next, pairs.len())?;
    Ok(Change {
        values,
        made,
        next: after,
    })
}
