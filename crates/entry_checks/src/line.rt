//! The entries `whole` and `line`: directions of the image, with a feasible point.
ghost use Rattle.std.specs.Prelude.{◌≡◌, ⊤, ℕ, nat_lt, ◌&&◌, length, map, []};
ghost use Rattle.std.specs.List.{list_all};
ghost use Rattle.exact_field.specs.Rational.{neg_ℚ};
ghost use Rattle.exact_field.specs.Vector.{entry};
ghost use Rattle.frac128.specs.Held.{is_held};
ghost use Rattle.frac128.specs.Sparse.{IsSparse, is_zero as is_number_zero};
ghost use Rattle.lineality.specs.Lines.{leading_place};
ghost use Rattle.log_rules.specs.AnswerEvents.{whole_events, goes_on, line_events};
ghost use Rattle.log_rules.specs.Runs.{Runs, RunsAll, steps};
ghost use Rattle.vlp_matrices.specs.Matrices.{AreMatricesOf};
ghost use Rattle.polyhedra.specs.DoubleDescription.{leading};

use crate::image::{in_feasible, in_recession, is_above};
use crate::steps::{Steps, append, pass};
use exact_field::Field;
use frac128::{Frac, Spot, Vector, is_zero};
use lineality::line_places;
use log_rules::{Rule, Stop};
use src_sink::Items;
use std::alloc::Global;
use vlp_matrices::Matrices;
use vlp_problem::Problem;

/// The negative of a vector.
fn negate(alloc: Global, v: &[Frac]) -> Result<Vector, Stop>
    ensures { (taken : ℕ) → Runs is_held [] taken taken (λ u. u ≡ map neg_ℚ v.now) result }
{
    let mut opposite = Items::new(alloc);
    for x in v {
        append(&mut opposite, x.neg())?;
    }
    Ok(opposite)
}

/// The first entry that is not 0, or 0 where there is none.
pub fn leading_entry(v: &[Frac]) -> Frac
    ensures { result ≡ leading v.now }
{
    for x in v {
        if !is_zero(*x) {
            return *x;
        }
    }
    Frac::from(0)
}

/// The place of the first entry that is not 0, and the one after the last where there is none.
fn leading_place(v: &[Frac]) -> usize
    ensures { result ≡ leading_place v.now }
{
    line_places::leading_place(v)
}

/// Whether a vector is 0 at a place.
fn is_zero_at(v: &[Frac], place: usize) -> bool
    ensures { result ≡ is_number_zero (entry v.now place) }
{
    let before = place.saturating_sub(1);
    before >= v.len() || is_zero(v[before])
}

/// Whether a vector is 0 at the place of a line.
fn is_reduced_at(line: &Vector, v: &[Frac]) -> bool
    ensures { result ≡ is_number_zero (entry v.now (leading_place line.now)) }
{
    is_zero_at(v, leading_place(line.as_slice()))
}

/// Whether a vector is 0 at the place of each line.
pub fn is_reduced(lines: &[Vector], v: &[Frac]) -> bool
    ensures { result ≡ list_all (λ d. is_number_zero (entry v.now (leading_place d))) lines.now }
{
    lines.iter().all(|line| is_reduced_at(line, v))
}

/// Whether a line's place is before this one, and the line is 0 there.
fn ends_before(line: &Vector, place: usize) -> bool
    ensures { result
        ≡ (nat_lt (leading_place line.now) place && is_number_zero (entry line.now place)) }
{
    leading_place(line.as_slice()) < place && is_zero_at(line.as_slice(), place)
}

/// Whether this is so for each line.
fn all_before(lines: &[Vector], place: usize) -> bool
    ensures { result
        ≡ list_all (λ e. nat_lt (leading_place e) place && is_number_zero (entry e place))
        lines.now }
{
    lines.iter().all(|line| ends_before(line, place))
}

/// Whether `d` goes on the reduced echelon form of the lines.
pub fn goes_on(lines: &[Vector], d: &[Frac]) -> bool
    ensures { result ≡ goes_on lines.now d.now }
{
    leading_entry(d) == Frac::from(1) && all_before(lines, leading_place(d))
}

/// The tests of a `whole` entry: `x` is feasible, and along `ray` the image reaches minus the
/// duality vector `c`. It costs the entries of the sides and of the objectives, the numbers of
/// columns, and the test in the cone.
pub fn check_whole(
    alloc: Global,
    problem: &Problem,
    matrices: &Matrices,
    c: &[Frac],
    x: &[Spot],
    ray: &[Spot],
    m: &[Spot],
) -> Result<(), Stop>
    requires matrices { AreMatricesOf problem.now matrices.now }
    requires scale { length c.now ≡ problem.now.objs }
    requires point { IsSparse x.now }
    requires direction { IsSparse ray.now }
    requires multipliers { IsSparse m.now }
    ensures { RunsAll is_held (whole_events problem.now c.now x.now ray.now m.now) (λ _. ⊤) result }
{
    let mut counter = Steps { taken: 0 };
    in_feasible(alloc, &mut counter, problem, matrices, x)?;
    in_recession(alloc, &mut counter, problem, matrices, ray)?;
    let target = negate(alloc, c)?;
    is_above(
        alloc,
        &mut counter,
        problem,
        matrices,
        target.as_slice(),
        ray,
        m,
    )
}

/// The tests of a `line` entry after these lines: `d` goes on their reduced echelon form, `x` is
/// feasible, and the image reaches `d` along `ray` and minus `d` along `back`. It costs twice what
/// `whole` does, and the entries of the lines.
pub fn check_line(
    alloc: Global,
    problem: &Problem,
    matrices: &Matrices,
    lines: &[Vector],
    d: &[Frac],
    x: &[Spot],
    ray: &[Spot],
    m: &[Spot],
    back: &[Spot],
    n: &[Spot],
) -> Result<(), Stop>
    requires matrices { AreMatricesOf problem.now matrices.now }
    requires point { IsSparse x.now }
    requires direction { IsSparse ray.now }
    requires multipliers { IsSparse m.now }
    requires back { IsSparse back.now }
    requires back_multipliers { IsSparse n.now }
    ensures { RunsAll is_held
        (line_events problem.now lines.now d.now x.now ray.now m.now back.now n.now) (λ _. ⊤)
        result }
{
    let mut counter = Steps { taken: 0 };
    pass(Rule::Length, d.len() == problem.objs as usize)?;
    pass(Rule::Scaled, goes_on(lines, d))?;
    in_feasible(alloc, &mut counter, problem, matrices, x)?;
    in_recession(alloc, &mut counter, problem, matrices, ray)?;
    is_above(alloc, &mut counter, problem, matrices, d, ray, m)?;
    in_recession(alloc, &mut counter, problem, matrices, back)?;
    let opposite = negate(alloc, d)?;
    is_above(
        alloc,
        &mut counter,
        problem,
        matrices,
        opposite.as_slice(),
        back,
        n,
    )
}
