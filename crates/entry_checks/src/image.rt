//! Points of the feasible set and of the image, and directions of both.
ghost use Rattle.std.specs.Prelude.{◌≡◌, ⊤, ℕ, ◌+◌, ◌^◌, ◌<◌, ◌≤◌, length, map, All, IsTrue, [], ◌∷◌, ◌++◌};
ghost use Rattle.std.specs.List.{zip, flat_map};
ghost use Rattle.exact_field.specs.Rational.{zero_ℚ, ◌-ℚ◌};
ghost use Rattle.exact_field.specs.Vector.{dot};
ghost use Rattle.frac128.specs.Held.{is_held};
ghost use Rattle.frac128.specs.Sparse.{IsSparse};
ghost use Rattle.log_rules.specs.Runs.{Runs, steps};
ghost use Rattle.log_rules.specs.VectorEvents.{in_feasible, in_recession, above};
ghost use Rattle.entry_checks.specs.Parts.{side_events, sides_events, recession_events, difference_events, rest_events};
ghost use Rattle.vlp_matrices.specs.Matrices.{AreMatricesOf};
ghost use Rattle.upper_image.specs.Spots.{IsVector, dense};

use crate::cone::{in_cone, places_within};
use crate::steps::{Steps, append, pass};
use frac128::{Frac, Sparse, Spot, Vector};
use log_rules::{Rule, Stop};
use src_sink::Items;
use std::alloc::Global;
use vlp_matrices::Matrices;
use vlp_problem::Problem;

/// A vector of `n` zeros.
fn zeros(alloc: Global, n: usize) -> Result<Vec<Frac>, Stop>
    ensures { (taken : ℕ) → Runs is_held [] taken taken (λ v. v.items ≡ dense n []) result }
{
    match vec![in alloc; Frac::from(0); n] {
        Ok(values) => Ok(values),
        Err(_) => Err(Stop::NoMemory),
    }
}

/// A sparse vector of `n` entries as a list of them all.
pub fn spread(alloc: Global, n: usize, spots: &[Spot]) -> Result<Vec<Frac>, Stop>
    requires { IsVector n spots.now }
    ensures { (taken : ℕ) → Runs is_held [] taken taken (λ v. v.items ≡ dense n spots.now) result }
{
    let mut values = zeros(alloc, n)?;
    let mut left = spots.len();
    while left > 0 {
        left -= 1;
        let spot = spots[left];
        values[spot.at as usize - 1] = spot.value;
    }
    Ok(values)
}

/// A side's product with `x` is at least a bound.
fn meets_side(counter: &mut Steps, row: &[Spot], x: &[Frac], bound: Frac) -> Result<(), Stop>
    requires vector { IsVector (length x.now) row.now }
    requires room { counter.old.taken
        + steps (side_events (dense (length x.now) row.now) x.now bound)
        < 2 ^ 63 }
    ensures { Runs is_held (side_events (dense (length x.now) row.now) x.now bound)
        counter.old.taken counter.new.taken (λ _. ⊤) result }
{
    let product = counter.sparse_dot(row, x)?;
    pass(Rule::Side, bound <= product)
}

/// `x` meets each side.
fn meets_sides(
    counter: &mut Steps,
    rows: &[Sparse],
    bounds: &[Frac],
    x: &[Frac],
) -> Result<(), Stop>
    requires vectors { All (IsVector (length x.now)) rows.now }
    requires bounds { length rows.now ≡ length bounds.now }
    requires room { counter.old.taken
        + steps (sides_events (map (dense (length x.now)) rows.now) bounds.now x.now)
        < 2 ^ 63 }
    ensures { Runs is_held (sides_events (map (dense (length x.now)) rows.now) bounds.now x.now)
        counter.old.taken counter.new.taken (λ _. ⊤) result }
{
    for (i, row) in rows.iter().enumerate() {
        meets_side(counter, row.as_slice(), x, bounds[i])?;
    }
    Ok(())
}

/// No side falls along `x`.
fn keeps_sides(counter: &mut Steps, rows: &[Sparse], x: &[Frac]) -> Result<(), Stop>
    requires vectors { All (IsVector (length x.now)) rows.now }
    requires room { counter.old.taken
        + steps (recession_events (map (dense (length x.now)) rows.now) x.now)
        < 2 ^ 63 }
    ensures { Runs is_held (recession_events (map (dense (length x.now)) rows.now) x.now)
        counter.old.taken counter.new.taken (λ _. ⊤) result }
{
    for row in rows {
        meets_side(counter, row.as_slice(), x, Frac::from(0))?;
    }
    Ok(())
}

/// The point `x` is feasible. It costs the entries of the sides and the number of columns.
pub fn in_feasible(
    alloc: Global,
    counter: &mut Steps,
    problem: &Problem,
    matrices: &Matrices,
    x: &[Spot],
) -> Result<(), Stop>
    requires matrices { AreMatricesOf problem.now matrices.now }
    requires sparse { IsSparse x.now }
    requires room { counter.old.taken + steps (in_feasible problem.now x.now) < 2 ^ 63 }
    ensures { Runs is_held (in_feasible problem.now x.now) counter.old.taken counter.new.taken
        (λ _. ⊤) result }
{
    places_within(problem.cols as usize, x)?;
    let values = spread(alloc, problem.cols as usize, x)?;
    let rows = matrices.sides.rows.as_slice();
    meets_sides(counter, rows, matrices.bounds.as_slice(), values.as_slice())
}

/// `x` is in the recession cone of the feasible set. It costs as much.
pub fn in_recession(
    alloc: Global,
    counter: &mut Steps,
    problem: &Problem,
    matrices: &Matrices,
    x: &[Spot],
) -> Result<(), Stop>
    requires matrices { AreMatricesOf problem.now matrices.now }
    requires sparse { IsSparse x.now }
    requires room { counter.old.taken + steps (in_recession problem.now x.now) < 2 ^ 63 }
    ensures { Runs is_held (in_recession problem.now x.now) counter.old.taken counter.new.taken
        (λ _. ⊤) result }
{
    places_within(problem.cols as usize, x)?;
    let values = spread(alloc, problem.cols as usize, x)?;
    keeps_sides(counter, matrices.sides.rows.as_slice(), values.as_slice())
}

/// An entry minus the product of its row with `x`.
fn difference(counter: &mut Steps, row: &[Spot], x: &[Frac], entry: Frac) -> Result<Frac, Stop>
    requires vector { IsVector (length x.now) row.now }
    requires room { counter.old.taken
        + steps (difference_events (dense (length x.now) row.now) x.now entry)
        < 2 ^ 63 }
    ensures { Runs is_held (difference_events (dense (length x.now) row.now) x.now entry)
        counter.old.taken counter.new.taken
        (λ v. v ≡ entry -ℚ dot (dense (length x.now) row.now) x.now) result }
{
    let product = counter.sparse_dot(row, x)?;
    counter.sub(entry, product)
}

/// Each entry of `y` minus the product of its row with `x`.
fn differences(
    alloc: Global,
    counter: &mut Steps,
    rows: &[Sparse],
    y: &[Frac],
    x: &[Frac],
) -> Result<Vector, Stop>
    requires vectors { All (IsVector (length x.now)) rows.now }
    requires entries { length rows.now ≡ length y.now }
    requires room { counter.old.taken
        + steps (rest_events (map (dense (length x.now)) rows.now) y.now x.now)
        < 2 ^ 63 }
    ensures { Runs is_held (rest_events (map (dense (length x.now)) rows.now) y.now x.now)
        counter.old.taken counter.new.taken
        (λ v. v ≡ map (λ p. p.1 -ℚ dot p.0 x.now) (zip (map (dense (length x.now)) rows.now) y.now))
        result }
{
    let mut rest = Items::new(alloc);
    for (i, row) in rows.iter().enumerate() {
        let value = difference(counter, row.as_slice(), x, y[i])?;
        append(&mut rest, value)?;
    }
    Ok(rest)
}

/// `y` minus the objectives' value at `x` is in the ordering cone, by multipliers where the cone is
/// given by generators. It costs the entries of the objectives, the number of columns, and the test
/// in the cone.
pub fn is_above(
    alloc: Global,
    counter: &mut Steps,
    problem: &Problem,
    matrices: &Matrices,
    y: &[Frac],
    x: &[Spot],
    m: &[Spot],
) -> Result<(), Stop>
    requires matrices { AreMatricesOf problem.now matrices.now }
    requires entries { length y.now ≡ problem.now.objs }
    requires vector { IsVector problem.now.cols x.now }
    requires sparse { IsSparse m.now }
    requires room { counter.old.taken + steps (above problem.now y.now x.now m.now) < 2 ^ 63 }
    ensures { Runs is_held (above problem.now y.now x.now m.now) counter.old.taken counter.new.taken
        (λ _. ⊤) result }
{
    let values = spread(alloc, problem.cols as usize, x)?;
    let rows = matrices.objectives.rows.as_slice();
    let rest = differences(alloc, counter, rows, y, values.as_slice())?;
    in_cone(counter, &problem.cone, rest.as_slice(), m)
}
