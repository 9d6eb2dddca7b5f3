//! The entry `duality`: what shows that a duality vector fits the problem.
ghost use Rattle.std.specs.Prelude.{◌≡◌, ◌≢◌, ⊤, ℕ, Bool, true, if◌then◌else◌, ◌+◌, ◌*◌, ◌^◌, ◌<◌, ◌≤◌, ◌&&◌, ◌==◌, length, map, All, IsTrue, Option, [], ◌∷◌, ◌++◌};
ghost use Rattle.std.specs.List.{list_all};
ghost use Rattle.exact_field.specs.Order.{same_ℚ};
ghost use Rattle.exact_field.specs.Rational.{zero_ℚ, one_ℚ, lt_ℚ};
ghost use Rattle.exact_field.specs.Vector.{dot, entry};
ghost use Rattle.frac128.specs.Held.{is_held};
ghost use Rattle.frac128.specs.Sparse.{is_zero as is_number_zero};
ghost use Rattle.log_rules.specs.CutEvents.{duality_events, follows_given, interior, inverse_steps, has_lengths as lists_have_lengths, rises as numbers_rise, all_within as numbers_within};
ghost use Rattle.log_rules.specs.Events.{dot_steps};
ghost use Rattle.log_rules.specs.Events.Event.{test};
ghost use Rattle.log_rules.specs.Runs.{Runs, RunsAll, steps};
ghost use Rattle.log_rules.specs.declared.rule.Rule.TheVariants as rule;
ghost use Rattle.entry_checks.specs.Parts.{quotient_events, quotients_events, row_events, rows_events, weight_events, weights_events, unit_events, units_events, follow_events};
ghost use Rattle.upper_image.specs.Shows.{picked};
ghost use Rattle.upper_image.specs.Spots.{column, pieces};
ghost use Rattle.vlp_problem.specs.Cones.{cone_fits, duality_fits};
ghost use Rattle.vlp_problem.specs.declared.problem.Cone.TheVariants as cone;

use crate::numbers::are_picks;
use crate::steps::{Steps, pass};
use exact_field::is_positive;
use frac128::{Frac, Vector, is_zero};
use log_rules::{Rule, Stop};
use vlp_problem::{Cone, Problem};

/// Whether the lists of a `duality` entry have their lengths.
fn has_lengths(objs: u32, cone: &Cone, weights: &[Frac], picks: &[u32], inverse: &[Frac]) -> bool
    ensures { result ≡ lists_have_lengths objs cone.now weights.now picks.now inverse.now }
{
    match cone {
        Cone::Gens(vectors) => {
            weights.len() == vectors.len()
                && picks.len() == objs as usize
                && inverse.len() as u64 == u64::from(objs) * u64::from(objs)
        }
        Cone::Orthant | Cone::Dual(_) => {
            weights.is_empty() && picks.is_empty() && inverse.is_empty()
        }
    }
}

/// Whether `c` and the lists have their lengths.
fn lists_fit(
    objs: u32,
    cone: &Cone,
    c: &[Frac],
    weights: &[Frac],
    picks: &[u32],
    inverse: &[Frac],
) -> bool
    ensures { result
        ≡ (length c.now == objs
        && lists_have_lengths objs cone.now weights.now picks.now inverse.now) }
{
    c.len() == objs as usize && has_lengths(objs, cone, weights, picks, inverse)
}

/// Whether each number is 1.
fn are_ones(c: &[Frac]) -> bool
    ensures { result ≡ list_all (same_ℚ one_ℚ) c.now }
{
    c.iter().all(|x| Frac::from(1) == *x)
}

/// Whether each number is above 0.
fn are_positive(c: &[Frac]) -> bool
    ensures { result ≡ list_all (lt_ℚ zero_ℚ) c.now }
{
    c.iter().all(|x| is_positive(*x))
}

/// Whether each number is 0.
fn are_zeros(v: &[Frac]) -> bool
    ensures { result ≡ list_all is_number_zero v.now }
{
    v.iter().all(|x| is_zero(*x))
}

/// A quotient is this number.
fn is_quotient(counter: &mut Steps, x: Frac, divisor: Frac, expected: Frac) -> Result<(), Stop>
    requires divisor { divisor ≢ zero_ℚ }
    requires room { counter.old.taken + steps (quotient_events divisor x expected) < 2 ^ 63 }
    ensures { Runs is_held (quotient_events divisor x expected) counter.old.taken counter.new.taken
        (λ _. ⊤) result }
{
    let quotient = counter.div(x, divisor)?;
    pass(Rule::Scaled, expected == quotient)
}

/// `c` is `f` divided by a number.
fn is_divided(counter: &mut Steps, f: &[Frac], c: &[Frac], divisor: Frac) -> Result<(), Stop>
    requires divisor { divisor ≢ zero_ℚ }
    requires lengths { length f.now ≡ length c.now }
    requires room { counter.old.taken + steps (quotients_events f.now c.now divisor) < 2 ^ 63 }
    ensures { Runs is_held (quotients_events f.now c.now divisor) counter.old.taken
        counter.new.taken (λ _. ⊤) result }
{
    for (i, x) in f.iter().enumerate() {
        is_quotient(counter, *x, divisor, c[i])?;
    }
    Ok(())
}

/// A row that is not 0 has a product above 0 with `c`.
fn meets_row(counter: &mut Steps, v: &[Frac], c: &[Frac]) -> Result<(), Stop>
    requires widths { length v.now ≡ length c.now }
    requires room { counter.old.taken + steps (row_events c.now v.now) < 2 ^ 63 }
    ensures { Runs is_held (row_events c.now v.now) counter.old.taken counter.new.taken (λ _. ⊤)
        result }
{
    if are_zeros(v) {
        return Ok(());
    }
    let product = counter.dot(v, c)?;
    pass(Rule::Interior, is_positive(product))
}

/// The same for each row.
fn meets_rows(counter: &mut Steps, rows: &[Vector], c: &[Frac]) -> Result<(), Stop>
    requires widths { All (λ v. length v ≡ length c.now) rows.now }
    requires room { counter.old.taken + steps (rows_events c.now rows.now) < 2 ^ 63 }
    ensures { Runs is_held (rows_events c.now rows.now) counter.old.taken counter.new.taken (λ _. ⊤)
        result }
{
    for row in rows {
        meets_row(counter, row.as_slice(), c)?;
    }
    Ok(())
}

/// The product of the entries at one place of the vectors, counted from 0, with weights.
fn column_product(
    counter: &mut Steps,
    vectors: &[Vector],
    place: usize,
    weights: &[Frac],
) -> Result<Frac, Stop>
    requires entries { All (λ v. place < length v) vectors.now }
    requires lengths { length vectors.now ≡ length weights.now }
    requires room { counter.old.taken
        + steps (dot_steps (column vectors.now (place + 1)) weights.now)
        < 2 ^ 63 }
    ensures { Runs is_held (dot_steps (column vectors.now (place + 1)) weights.now)
        counter.old.taken counter.new.taken
        (λ t. t ≡ dot (column vectors.now (place + 1)) weights.now) result }
{
    let mut total = Frac::from(0);
    for (i, vector) in vectors.iter().enumerate() {
        let entry = vector.as_slice()[place];
        total = counter.plus_product(total, entry, weights[i])?;
    }
    Ok(total)
}

/// The vectors with their weights have this entry at a place, counted from 0.
fn weighs_at(
    counter: &mut Steps,
    vectors: &[Vector],
    place: usize,
    weights: &[Frac],
    expected: Frac,
) -> Result<(), Stop>
    requires entries { All (λ v. place < length v) vectors.now }
    requires lengths { length vectors.now ≡ length weights.now }
    requires room { counter.old.taken
        + steps (weight_events vectors.now weights.now expected (place + 1))
        < 2 ^ 63 }
    ensures { Runs is_held (weight_events vectors.now weights.now expected (place + 1))
        counter.old.taken counter.new.taken (λ _. ⊤) result }
{
    let sum = column_product(counter, vectors, place, weights)?;
    pass(Rule::Interior, sum == expected)
}

/// The vectors with their weights sum to `c`.
fn weighs(counter: &mut Steps, vectors: &[Vector], weights: &[Frac], c: &[Frac]) -> Result<(), Stop>
    requires widths { All (λ v. length v ≡ length c.now) vectors.now }
    requires lengths { length vectors.now ≡ length weights.now }
    requires room { counter.old.taken + steps (weights_events vectors.now weights.now c.now)
        < 2 ^ 63 }
    ensures { Runs is_held (weights_events vectors.now weights.now c.now) counter.old.taken
        counter.new.taken (λ _. ⊤) result }
{
    for (i, entry) in c.iter().enumerate() {
        weighs_at(counter, vectors, i, weights, *entry)?;
    }
    Ok(())
}

/// 1 for a row's own vector, and 0 for the others.
fn unit(own: bool) -> Frac
    ensures { result ≡ (if own then one_ℚ else zero_ℚ) }
{
    if own { Frac::from(1) } else { Frac::from(0) }
}

/// A vector's product with a row is 1 where the row is its own, and 0 else.
fn has_unit(counter: &mut Steps, row: &[Frac], own: bool, v: &[Frac]) -> Result<(), Stop>
    requires lengths { length v.now ≡ length row.now }
    requires room { counter.old.taken + steps (unit_events row.now own v.now) < 2 ^ 63 }
    ensures { Runs is_held (unit_events row.now own v.now) counter.old.taken counter.new.taken
        (λ _. ⊤) result }
{
    let product = counter.dot(v, row)?;
    pass(Rule::Interior, product == unit(own))
}

/// The same for each picked vector, of which the one of this number, from 1, is the row's own.
fn has_units(
    counter: &mut Steps,
    vectors: &[Vector],
    picks: &[u32],
    number: usize,
    row: &[Frac],
) -> Result<(), Stop>
    requires widths { All (λ v. length v ≡ length row.now) vectors.now }
    requires picks { numbers_within (length vectors.now) picks.now ≡ true }
    requires room { counter.old.taken
        + steps (units_events (picked vectors.now picks.now) number row.now)
        < 2 ^ 63 }
    ensures { Runs is_held (units_events (picked vectors.now picks.now) number row.now)
        counter.old.taken counter.new.taken (λ _. ⊤) result }
{
    for (b, pick) in picks.iter().enumerate() {
        let v = vectors[*pick as usize - 1].as_slice();
        has_unit(counter, row, number == b + 1, v)?;
    }
    Ok(())
}

/// The rows of `objs` numbers invert the picked vectors.
fn inverts(
    counter: &mut Steps,
    objs: usize,
    vectors: &[Vector],
    picks: &[u32],
    inverse: &[Frac],
) -> Result<(), Stop>
    requires few { objs ≤ 100000 }
    requires entries { length inverse.now ≡ objs * objs }
    requires widths { All (λ v. length v ≡ objs) vectors.now }
    requires picks { numbers_within (length vectors.now) picks.now ≡ true }
    requires room { counter.old.taken + steps (inverse_steps objs vectors.now picks.now inverse.now)
        < 2 ^ 63 }
    ensures { Runs is_held (inverse_steps objs vectors.now picks.now inverse.now) counter.old.taken
        counter.new.taken (λ _. ⊤) result }
{
    for a in 0..objs {
        let from = a * objs;
        let row = &inverse[from..from + objs];
        has_units(counter, vectors, picks, a + 1, row)?;
    }
    Ok(())
}

/// `c` is interior to the cone of the generators: their sum with positive weights, of which as many
/// as there are entries have an inverse.
fn is_solid(
    counter: &mut Steps,
    vectors: &[Vector],
    c: &[Frac],
    weights: &[Frac],
    picks: &[u32],
    inverse: &[Frac],
) -> Result<(), Stop>
    requires few { length c.now ≤ 100000 }
    requires widths { All (λ v. length v ≡ length c.now) vectors.now }
    requires weights { length vectors.now ≡ length weights.now }
    requires entries { length inverse.now ≡ length c.now * length c.now }
    requires room { counter.old.taken
        + steps (interior (length c.now) (cone.Gens vectors.now) c.now weights.now picks.now
        inverse.now)
        < 2 ^ 63 }
    ensures { Runs is_held
        (interior (length c.now) (cone.Gens vectors.now) c.now weights.now picks.now inverse.now)
        counter.old.taken counter.new.taken (λ _. ⊤) result }
{
    pass(Rule::Sign, are_positive(weights))?;
    weighs(counter, vectors, weights, c)?;
    pass(Rule::Index, are_picks(vectors.len(), picks))?;
    inverts(counter, c.len(), vectors, picks, inverse)
}

/// `c` is `f` divided by its last entry, which is positive.
fn follows(counter: &mut Steps, f: &[Frac], c: &[Frac]) -> Result<(), Stop>
    requires some { 0 < length f.now }
    requires lengths { length f.now ≡ length c.now }
    requires room { counter.old.taken + steps (follow_events f.now c.now) < 2 ^ 63 }
    ensures { Runs is_held (follow_events f.now c.now) counter.old.taken counter.new.taken (λ _. ⊤)
        result }
{
    let last = f[f.len() - 1];
    pass(Rule::Scaled, is_positive(last))?;
    is_divided(counter, f, c, last)
}

/// `c` is as the problem asks for it.
fn follows_given(
    counter: &mut Steps,
    cone: &Cone,
    duality: &Option<Vector>,
    c: &[Frac],
) -> Result<(), Stop>
    requires some { 0 < length c.now }
    requires fits { IsTrue (duality_fits (length c.now) duality.now) }
    requires room { counter.old.taken
        + steps (follows_given (length c.now) cone.now duality.now c.now)
        < 2 ^ 63 }
    ensures { Runs is_held (follows_given (length c.now) cone.now duality.now c.now)
        counter.old.taken counter.new.taken (λ _. ⊤) result }
{
    match duality {
        Some(f) => follows(counter, f.as_slice(), c),
        None => match cone {
            Cone::Orthant => pass(Rule::Scaled, are_ones(c)),
            Cone::Gens(_) | Cone::Dual(_) => Ok(()),
        },
    }
}

/// `c` is interior to the cone.
fn is_interior(
    counter: &mut Steps,
    cone: &Cone,
    c: &[Frac],
    weights: &[Frac],
    picks: &[u32],
    inverse: &[Frac],
) -> Result<(), Stop>
    requires few { length c.now ≤ 100000 }
    requires fits { IsTrue (cone_fits (length c.now) cone.now) }
    requires lengths { lists_have_lengths (length c.now) cone.now weights.now picks.now inverse.now
        ≡ true }
    requires room { counter.old.taken
        + steps (interior (length c.now) cone.now c.now weights.now picks.now inverse.now)
        < 2 ^ 63 }
    ensures { Runs is_held
        (interior (length c.now) cone.now c.now weights.now picks.now inverse.now) counter.old.taken
        counter.new.taken (λ _. ⊤) result }
{
    match cone {
        Cone::Orthant => pass(Rule::Interior, are_positive(c)),
        Cone::Gens(vectors) => is_solid(counter, vectors.as_slice(), c, weights, picks, inverse),
        Cone::Dual(rows) => meets_rows(counter, rows.as_slice(), c),
    }
}

/// The tests of a `duality` entry: `c` is interior to the ordering cone, and as the problem asks
/// for it. It costs at most the cube of the number of objectives, where the cone is given by
/// generators, and the entries of the cone's vectors else.
pub fn check_duality(
    problem: &Problem,
    c: &[Frac],
    weights: &[Frac],
    picks: &[u32],
    inverse: &[Frac],
) -> Result<(), Stop>
    ensures { RunsAll is_held
        (duality_events problem.now c.now weights.now picks.now inverse.now) (λ _. ⊤) result }
{
    let mut counter = Steps { taken: 0 };
    let objs = problem.objs;
    pass(
        Rule::Length,
        lists_fit(objs, &problem.cone, c, weights, picks, inverse),
    )?;
    pass(Rule::Scaled, c[objs as usize - 1] == Frac::from(1))?;
    follows_given(&mut counter, &problem.cone, &problem.duality, c)?;
    is_interior(&mut counter, &problem.cone, c, weights, picks, inverse)
}
