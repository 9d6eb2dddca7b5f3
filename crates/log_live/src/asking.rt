//! What a row asks for: the tests of its pairs and hints.
ghost use Rattle.std.specs.Prelude.{◌≡◌, ⊤, ℕ, List, All, true, [], ◌∷◌, IfOk, length, option_copied};
ghost use Rattle.exact_field.specs.Rational.{ℚ};
ghost use Rattle.frac128.specs.Held.{is_held};
ghost use Rattle.log_rules.specs.Events.Event.{test};
ghost use Rattle.log_rules.specs.Live.{required_pairs};
ghost use Rattle.log_rules.specs.LiveEvents.{same_pairs};
ghost use Rattle.log_rules.specs.Runs.{Runs};
ghost use Rattle.log_rules.specs.declared.rule.Rule.TheVariants as rule;
ghost use Rattle.log_versions.specs.Hints.{least_hints};
ghost use Rattle.log_live.specs.Adding.{AreAtRow};
ghost use Rattle.log_live.specs.Hinting.{addition_tests, are_hinted, are_right};
ghost use Rattle.log_live.specs.Live.{HasTightSet, live_of};

use crate::counting::least_common;
use crate::generator::Generator;
use crate::hinting::{Met, have_hints};
use crate::matching::has_pairs;
use crate::telling::tell_hints;
use deriv_log::LogPair;
use entry_checks::pass;
use frac128::Frac;
use incid_sets::Marks;
use log_rules::{Rule, Stop};
use src_sink::{Items, NoMemory};
use std::alloc::Global;

/// The empty set of rows in use; where there are no generators, of none.
pub fn no_rows(alloc: Global, generators: &[Generator]) -> Result<Marks, NoMemory>
    requires { (rows : List (List ℚ)) × All (HasTightSet rows) generators.now }
    ensures { IfOk result (λ marks. All (λ g. length g.tight ≡ length marks) generators.now) }
{
    let mut bound = 0;
    if !generators.is_empty() {
        bound = generators[0].tight.bound();
    }
    Marks::new(alloc, bound)
}

/// Whether the pairs are those that a row with these values asks for.
fn are_asked(
    alloc: Global,
    generators: &[Generator],
    values: &[Frac],
    pairs: &[LogPair],
) -> Result<bool, NoMemory>
    requires { (q : ℕ) × (rows : List (List ℚ)) × (row : List ℚ)
        × AreAtRow q rows row generators.now values.now }
    ensures { (q : ℕ) (rows : List (List ℚ)) (row : List ℚ)
        → AreAtRow q rows row generators.now values.now
        → IfOk result (λ answer. answer
        ≡ same_pairs pairs.now (required_pairs rows (live_of generators.now) row)) }
{
    let common = no_rows(alloc, generators)?;
    let least = least_common(generators);
    has_pairs(alloc, generators, values, pairs, common, least)
}

/// The test that the pairs are those that a row with these values asks for.
fn test_pairs(
    alloc: Global,
    generators: &[Generator],
    values: &[Frac],
    pairs: &[LogPair],
) -> Result<(), Stop>
    requires { (q : ℕ) × (rows : List (List ℚ)) × (row : List ℚ)
        × AreAtRow q rows row generators.now values.now }
    ensures { (q : ℕ) (rows : List (List ℚ)) (row : List ℚ) (taken : ℕ)
        → AreAtRow q rows row generators.now values.now
        → Runs is_held
        (test rule.Pairs (same_pairs pairs.now (required_pairs rows (live_of generators.now) row))
        ∷ [])
        taken taken (λ _. ⊤) result }
{
    match are_asked(alloc, generators, values, pairs) {
        Ok(asked) => pass(Rule::Pairs, asked),
        Err(_) => Err(Stop::NoMemory),
    }
}

/// Whether the pairs are those that a row with these values asks for, and where they are, whether
/// each other opposite pair has its hint.
fn meet_hints(
    alloc: Global,
    generators: &[Generator],
    values: &[Frac],
    pairs: &[LogPair],
    hints: &[u32],
) -> Result<Met, NoMemory>
    requires { (q : ℕ) × (rows : List (List ℚ)) × (row : List ℚ)
        × AreAtRow q rows row generators.now values.now }
    ensures listed { (q : ℕ) (rows : List (List ℚ)) (row : List ℚ)
        → AreAtRow q rows row generators.now values.now
        → IfOk result (λ met. met.listed ≡ are_right rows (live_of generators.now) row pairs.now) }
    ensures hinted { (q : ℕ) (rows : List (List ℚ)) (row : List ℚ)
        → AreAtRow q rows row generators.now values.now
        → IfOk result (λ met. met.listed ≡ true
        → met.hinted ≡ are_hinted rows (live_of generators.now) row pairs.now hints.now) }
{
    let common = no_rows(alloc, generators)?;
    let least = least_common(generators);
    let met = have_hints(alloc, generators, values, pairs, hints, common, least)?;
    Ok(met)
}

/// The tests of what was met.
fn pass_met(met: Met) -> Result<(), Stop>
    ensures { (taken : ℕ)
        → Runs is_held (test rule.Pairs met.listed ∷ test rule.Hint met.hinted ∷ []) taken taken
        (λ _. ⊤) result }
{
    if !met.listed {
        return Err(Stop::Wrong(Rule::Pairs));
    }
    pass(Rule::Hint, met.hinted)
}

/// The tests that the pairs are those that a row with these values asks for, and that each other
/// opposite pair has its hint.
fn test_hints(
    alloc: Global,
    generators: &[Generator],
    values: &[Frac],
    pairs: &[LogPair],
    hints: &[u32],
) -> Result<(), Stop>
    requires { (q : ℕ) × (rows : List (List ℚ)) × (row : List ℚ)
        × AreAtRow q rows row generators.now values.now }
    ensures { (q : ℕ) (rows : List (List ℚ)) (row : List ℚ) (taken : ℕ)
        → AreAtRow q rows row generators.now values.now
        → Runs is_held
        (test rule.Pairs (are_right rows (live_of generators.now) row pairs.now)
        ∷ test rule.Hint (are_hinted rows (live_of generators.now) row pairs.now hints.now) ∷ [])
        taken taken (λ _. ⊤) result }
{
    match meet_hints(alloc, generators, values, pairs, hints) {
        Ok(met) => pass_met(met),
        Err(_) => Err(Stop::NoMemory),
    }
}

/// The tests of the pairs of a row with these values and, where there are any, of its hints.
pub fn test_addition(
    alloc: Global,
    generators: &[Generator],
    values: &[Frac],
    pairs: &[LogPair],
    hints: Option<&[u32]>,
) -> Result<(), Stop>
    requires { (q : ℕ) × (rows : List (List ℚ)) × (row : List ℚ)
        × AreAtRow q rows row generators.now values.now }
    ensures { (q : ℕ) (rows : List (List ℚ)) (row : List ℚ) (taken : ℕ)
        → AreAtRow q rows row generators.now values.now
        → Runs is_held
        (addition_tests rows (live_of generators.now) row pairs.now (option_copied hints.entry))
        taken taken (λ _. ⊤) result }
{
    match hints {
        Some(hints) => test_hints(alloc, generators, values, pairs, hints),
        None => test_pairs(alloc, generators, values, pairs),
    }
}

/// The least hints of a row with these values, where its pairs are those that it asks for.
pub fn least_hints(
    alloc: Global,
    generators: &[Generator],
    values: &[Frac],
    pairs: &[LogPair],
) -> Result<Items<u32>, NoMemory>
    requires { (q : ℕ) × (rows : List (List ℚ)) × (row : List ℚ)
        × AreAtRow q rows row generators.now values.now }
    ensures { (q : ℕ) (rows : List (List ℚ)) (row : List ℚ)
        → AreAtRow q rows row generators.now values.now
        → pairs.now ≡ required_pairs rows (live_of generators.now) row
        → IfOk result (λ hints. hints ≡ least_hints rows (live_of generators.now) row pairs.now) }
{
    let common = no_rows(alloc, generators)?;
    tell_hints(alloc, generators, values, pairs, common)
}
