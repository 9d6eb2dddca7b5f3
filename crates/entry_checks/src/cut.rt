//! Columns of the sides and of the objectives: the entries `cut` and `farkas`.
ghost use Rattle.std.specs.Prelude.{◌≡◌, ⊤, ℕ, ◌+◌, ◌^◌, ◌<◌, ◌≤◌, length, map, All, List, [], ◌∷◌, ◌++◌};
ghost use Rattle.exact_field.specs.Order.{same_ℚ};
ghost use Rattle.exact_field.specs.Rational.{zero_ℚ, one_ℚ, lt_ℚ};
ghost use Rattle.exact_field.specs.Vector.{dot};
ghost use Rattle.frac128.specs.Held.{is_held};
ghost use Rattle.frac128.specs.Sparse.{IsSparse};
ghost use Rattle.deriv_log.specs.declared.entry.Entry.{Entry};
ghost use Rattle.log_rules.specs.CutEvents.{cut_events, farkas_events};
ghost use Rattle.log_rules.specs.Events.{dot_steps, product_steps};
ghost use Rattle.log_rules.specs.Events.Event.{test};
ghost use Rattle.log_rules.specs.Live.{duality_vector};
ghost use Rattle.log_rules.specs.Runs.{Runs, RunsAll, steps};
ghost use Rattle.log_rules.specs.declared.rule.Rule.TheVariants as rule;
ghost use Rattle.entry_checks.specs.Parts.{balance_events, balances_events, vanishing_events, contradiction_events, scaled_events, bound_events, positive_events};
ghost use Rattle.vlp_matrices.specs.Matrices.{AreMatricesOf};
ghost use Rattle.upper_image.specs.Spots.{IsVector, dense};

use crate::cone::{in_dual_cone, places_within, values_positive};
use crate::image::spread;
use crate::steps::{Steps, pass};
use exact_field::is_positive;
use frac128::{Frac, Sparse, Spot, is_zero};
use log_rules::{Rule, Stop};
use std::alloc::Global;
use vlp_matrices::Matrices;
use vlp_problem::Problem;

/// In one column, the product of the sides with `u` is that of the objectives with `w`.
fn is_balanced(
    counter: &mut Steps,
    sides: &[Spot],
    objectives: &[Spot],
    u: &[Frac],
    w: &[Frac],
) -> Result<(), Stop>
    requires sides { IsVector (length u.now) sides.now }
    requires objectives { IsVector (length w.now) objectives.now }
    requires room { counter.old.taken
        + steps (balance_events (dense (length u.now) sides.now)
        (dense (length w.now) objectives.now) u.now w.now)
        < 2 ^ 63 }
    ensures { Runs is_held (balance_events (dense (length u.now) sides.now)
        (dense (length w.now) objectives.now) u.now w.now) counter.old.taken counter.new.taken
        (λ _. ⊤) result }
{
    let left = counter.sparse_dot(sides, u)?;
    let right = counter.sparse_dot(objectives, w)?;
    pass(Rule::Balance, left == right)
}

/// The same in each column.
fn are_balanced(
    counter: &mut Steps,
    sides: &[Sparse],
    objectives: &[Sparse],
    u: &[Frac],
    w: &[Frac],
) -> Result<(), Stop>
    requires columns { length sides.now ≡ length objectives.now }
    requires sides { All (IsVector (length u.now)) sides.now }
    requires objectives { All (IsVector (length w.now)) objectives.now }
    requires room { counter.old.taken
        + steps (balances_events (map (dense (length u.now)) sides.now)
        (map (dense (length w.now)) objectives.now) u.now w.now)
        < 2 ^ 63 }
    ensures { Runs is_held (balances_events (map (dense (length u.now)) sides.now)
        (map (dense (length w.now)) objectives.now) u.now w.now) counter.old.taken counter.new.taken
        (λ _. ⊤) result }
{
    for (j, side) in sides.iter().enumerate() {
        let column = side.as_slice();
        let weights = objectives[j].as_slice();
        is_balanced(counter, column, weights, u, w)?;
    }
    Ok(())
}

/// In one column, the product of the sides with `u` is 0.
fn vanishes(counter: &mut Steps, sides: &[Spot], u: &[Frac]) -> Result<(), Stop>
    requires sides { IsVector (length u.now) sides.now }
    requires room { counter.old.taken
        + steps (vanishing_events u.now (dense (length u.now) sides.now))
        < 2 ^ 63 }
    ensures { Runs is_held (vanishing_events u.now (dense (length u.now) sides.now))
        counter.old.taken counter.new.taken (λ _. ⊤) result }
{
    let sum = counter.sparse_dot(sides, u)?;
    pass(Rule::Balance, is_zero(sum))
}

/// The same in each column.
fn all_vanish(counter: &mut Steps, sides: &[Sparse], u: &[Frac]) -> Result<(), Stop>
    requires sides { All (IsVector (length u.now)) sides.now }
    requires room { counter.old.taken
        + steps (contradiction_events (map (dense (length u.now)) sides.now) u.now)
        < 2 ^ 63 }
    ensures { Runs is_held (contradiction_events (map (dense (length u.now)) sides.now) u.now)
        counter.old.taken counter.new.taken (λ _. ⊤) result }
{
    for column in sides {
        vanishes(counter, column.as_slice(), u)?;
    }
    Ok(())
}

/// The product of the bounds with `u` is above 0.
fn has_positive_bound(counter: &mut Steps, bounds: &[Frac], u: &[Spot]) -> Result<(), Stop>
    requires vector { IsVector (length bounds.now) u.now }
    requires room { counter.old.taken + steps (positive_events bounds.now u.now) < 2 ^ 63 }
    ensures { Runs is_held (positive_events bounds.now u.now) counter.old.taken counter.new.taken
        (λ _. ⊤) result }
{
    let sum = counter.dot_sparse(bounds, u)?;
    pass(Rule::Bound, is_positive(sum))
}

/// The product of the bounds with `u` is `gamma`.
fn has_bound(counter: &mut Steps, bounds: &[Frac], u: &[Spot], gamma: Frac) -> Result<(), Stop>
    requires vector { IsVector (length bounds.now) u.now }
    requires room { counter.old.taken + steps (bound_events bounds.now u.now gamma) < 2 ^ 63 }
    ensures { Runs is_held (bound_events bounds.now u.now gamma) counter.old.taken counter.new.taken
        (λ _. ⊤) result }
{
    let sum = counter.dot_sparse(bounds, u)?;
    pass(Rule::Bound, sum == gamma)
}

/// The product of `w` with the duality vector is 1.
fn is_scaled(counter: &mut Steps, w: &[Frac], c: &[Frac]) -> Result<(), Stop>
    requires lengths { length w.now ≡ length c.now }
    requires room { counter.old.taken + steps (scaled_events w.now c.now) < 2 ^ 63 }
    ensures { Runs is_held (scaled_events w.now c.now) counter.old.taken counter.new.taken (λ _. ⊤)
        result }
{
    let product = counter.dot(w, c)?;
    pass(Rule::Scaled, product == Frac::from(1))
}

/// The tests of a `farkas` entry: `u` shows that the sides contradict each other. It costs the
/// entries of the sides, the numbers of sides and of columns, and the places of `u`.
pub fn check_farkas(
    alloc: Global,
    problem: &Problem,
    matrices: &Matrices,
    u: &[Spot],
) -> Result<(), Stop>
    requires matrices { AreMatricesOf problem.now matrices.now }
    requires sparse { IsSparse u.now }
    ensures { RunsAll is_held (farkas_events problem.now u.now) (λ _. ⊤) result }
{
    let mut counter = Steps { taken: 0 };
    let bounds = matrices.bounds.as_slice();
    places_within(bounds.len(), u)?;
    values_positive(u)?;
    let values = spread(alloc, bounds.len(), u)?;
    all_vanish(
        &mut counter,
        matrices.sides.columns.as_slice(),
        values.as_slice(),
    )?;
    has_positive_bound(&mut counter, bounds, u)
}

/// The tests of a `cut` entry: `w.y >= gamma` is valid for the image by the dual vector `u`, where
/// `c` is the duality vector. It costs the entries of the sides and of the objectives, the numbers
/// of sides and of columns, the places of `u`, and the test in the dual cone.
pub fn check_cut(
    alloc: Global,
    problem: &Problem,
    matrices: &Matrices,
    c: &[Frac],
    w: &[Frac],
    gamma: Frac,
    u: &[Spot],
    v: &[Spot],
) -> Result<(), Stop>
    requires matrices { AreMatricesOf problem.now matrices.now }
    requires scale { length c.now ≡ problem.now.objs }
    requires multipliers { IsSparse u.now }
    requires cone_multipliers { IsSparse v.now }
    ensures { (before : List Entry) → duality_vector before ≡ c.now
        → RunsAll is_held (cut_events problem.now before w.now gamma u.now v.now) (λ _. ⊤) result }
{
    let mut counter = Steps { taken: 0 };
    let bounds = matrices.bounds.as_slice();
    pass(Rule::Length, w.len() == problem.objs as usize)?;
    places_within(bounds.len(), u)?;
    values_positive(u)?;
    let values = spread(alloc, bounds.len(), u)?;
    let columns = matrices.sides.columns.as_slice();
    let objectives = matrices.objectives.columns.as_slice();
    are_balanced(&mut counter, columns, objectives, values.as_slice(), w)?;
    in_dual_cone(&mut counter, &problem.cone, w, v)?;
    is_scaled(&mut counter, w, c)?;
    has_bound(&mut counter, bounds, u, gamma)
}
