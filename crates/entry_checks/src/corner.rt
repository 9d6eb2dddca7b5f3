//! The entry `start`: the first generators, those of the cone of as many cuts as there are
//! objectives beside the lines.
ghost use Rattle.std.specs.Prelude.{◌≡◌, ⊤, ℕ, nat_le, Bool, true, if◌then◌else◌, ◌+◌, ◌*◌, ◌^◌, ◌<◌, ◌≤◌, ◌&&◌, ◌==◌, length, map, All, [], ◌∷◌, ◌++◌};
ghost use Rattle.std.specs.List.{list_all};
ghost use Rattle.exact_field.specs.Order.{same_ℚ};
ghost use Rattle.exact_field.specs.Rational.{zero_ℚ, one_ℚ, lt_ℚ};
ghost use Rattle.exact_field.specs.Vector.{entry};
ghost use Rattle.frac128.specs.Held.{is_held};
ghost use Rattle.frac128.specs.Sparse.{is_zero as is_number_zero};
ghost use Rattle.lineality.specs.Lines.{leading_place};
ghost use Rattle.log_rules.specs.CutEvents.{rises as numbers_rise, all_within as numbers_within};
ghost use Rattle.log_rules.specs.Live.{State, cut_at};
ghost use Rattle.log_rules.specs.LiveEvents.{start_events, all_reduced, corner as corner_of};
ghost use Rattle.log_rules.specs.Runs.{Runs, RunsAll, steps};
ghost use Rattle.entry_checks.specs.Cuts.{stated, named_from};
ghost use Rattle.entry_checks.specs.Parts.{tight_events, tights_events, corner_events, corners_events, all_corners};
ghost use Rattle.polyhedra.specs.DoubleDescription.{magnitude, leading};
ghost use Rattle.upper_image.specs.Spots.{pieces};

use crate::line::{is_reduced, leading_entry};
use crate::numbers::are_picks;
use crate::shared::SharedVector;
use crate::steps::{Steps, is_nonnegative, pass};
use exact_field::{Field, is_positive};
use frac128::{Frac, Vector, is_zero};
use log_rules::{Rule, Stop};
use vlp_problem::Problem;

/// The inequality `w.y >= gamma` that a `cut` entry states, with its dual vector.
#[derive(Debug, Drop)]
pub struct Cut {
    pub w: Vector,
    pub gamma: Frac,
    pub u: SharedVector,
}

/// A number without its sign.
pub fn magnitude(value: Frac) -> Frac
    ensures { result ≡ magnitude value }
{
    if is_nonnegative(value) {
        value
    } else {
        value.neg()
    }
}

/// Whether the first entry that is not 0 is 1 or -1.
fn is_normed(v: &[Frac]) -> bool
    ensures { result ≡ same_ℚ (magnitude (leading v.now)) one_ℚ }
{
    magnitude(leading_entry(v)) == Frac::from(1)
}

/// Whether each of so many rows of `objs` numbers is 0 at the place of each line.
fn are_rows_reduced(lines: &[Vector], count: usize, objs: usize, directions: &[Frac]) -> bool
    requires few { objs ≤ 100000 }
    requires many { count ≤ 100000 }
    requires entries { length directions.now ≡ count * objs }
    ensures { result ≡ all_reduced lines.now (pieces count objs directions.now) }
{
    for a in 0..count {
        let from = a * objs;
        if !is_reduced(lines, &directions[from..from + objs]) {
            return false;
        }
    }
    true
}

/// Whether the point and each of the directions, so many rows of `objs` numbers, are 0 at the place
/// of each line.
fn are_reduced(
    lines: &[Vector],
    count: usize,
    objs: usize,
    point: &[Frac],
    directions: &[Frac],
) -> bool
    requires few { objs ≤ 100000 }
    requires many { count ≤ 100000 }
    requires entries { length directions.now ≡ count * objs }
    ensures { result ≡ all_reduced lines.now (point.now ∷ pieces count objs directions.now) }
{
    is_reduced(lines, point) && are_rows_reduced(lines, count, objs, directions)
}

/// Whether the first entry that is not 0 of each of so many rows of `objs` numbers is 1 or -1.
fn are_normed(count: usize, objs: usize, directions: &[Frac]) -> bool
    requires few { objs ≤ 100000 }
    requires many { count ≤ 100000 }
    requires entries { length directions.now ≡ count * objs }
    ensures { result
        ≡ list_all (λ d. same_ℚ (magnitude (leading d)) one_ℚ) (pieces count objs directions.now) }
{
    for a in 0..count {
        let from = a * objs;
        if !is_normed(&directions[from..from + objs]) {
            return false;
        }
    }
    true
}

/// A cut is tight at a point.
fn is_tight(counter: &mut Steps, w: &[Frac], gamma: Frac, point: &[Frac]) -> Result<(), Stop>
    requires lengths { length w.now ≡ length point.now }
    requires room { counter.old.taken + steps (tight_events point.now w.now gamma) < 2 ^ 63 }
    ensures { Runs is_held (tight_events point.now w.now gamma) counter.old.taken counter.new.taken
        (λ _. ⊤) result }
{
    let product = counter.dot(w, point)?;
    pass(Rule::Corner, product == gamma)
}

/// The named cuts are tight at a point.
fn are_tight(counter: &mut Steps, cuts: &[Cut], named: &[u32], point: &[Frac]) -> Result<(), Stop>
    requires widths { All (λ cut. length cut.w ≡ length point.now) cuts.now }
    requires named { numbers_within (length cuts.now) named.now ≡ true }
    requires room { counter.old.taken
        + steps (tights_events point.now (named_from (map stated cuts.now) named.now))
        < 2 ^ 63 }
    ensures { Runs is_held (tights_events point.now (named_from (map stated cuts.now) named.now))
        counter.old.taken counter.new.taken (λ _. ⊤) result }
{
    for number in named {
        let cut = &cuts[*number as usize - 1];
        is_tight(counter, cut.w.as_slice(), cut.gamma, point)?;
    }
    Ok(())
}

/// Whether a product is as it should be: above 0 at the cut's own direction, and 0 at the others.
fn fits_corner(own: bool, product: Frac) -> bool
    ensures { result ≡ (if own then lt_ℚ zero_ℚ product else is_number_zero product) }
{
    if own {
        is_positive(product)
    } else {
        is_zero(product)
    }
}

/// A cut's product with a direction is positive for its own, and 0 for the others.
pub fn meets_direction(
    counter: &mut Steps,
    w: &[Frac],
    own: bool,
    direction: &[Frac],
) -> Result<(), Stop>
    requires lengths { length w.now ≡ length direction.now }
    requires room { counter.old.taken + steps (corner_events w.now own direction.now) < 2 ^ 63 }
    ensures { Runs is_held (corner_events w.now own direction.now) counter.old.taken
        counter.new.taken (λ _. ⊤) result }
{
    let product = counter.dot(w, direction)?;
    pass(Rule::Corner, fits_corner(own, product))
}

/// The same for each of the directions, rows of `objs` numbers.
fn meets_directions(
    counter: &mut Steps,
    count: usize,
    objs: usize,
    directions: &[Frac],
    w: &[Frac],
    number: usize,
) -> Result<(), Stop>
    requires few { objs ≤ 100000 }
    requires many { count ≤ 100000 }
    requires entries { length directions.now ≡ count * objs }
    requires width { length w.now ≡ objs }
    requires room { counter.old.taken
        + steps (corners_events (pieces count objs directions.now) w.now number)
        < 2 ^ 63 }
    ensures { Runs is_held (corners_events (pieces count objs directions.now) w.now number)
        counter.old.taken counter.new.taken (λ _. ⊤) result }
{
    for a in 0..count {
        let from = a * objs;
        meets_direction(counter, w, a + 1 == number, &directions[from..from + objs])?;
    }
    Ok(())
}

/// The same for each of the named cuts.
fn meet_directions(
    counter: &mut Steps,
    count: usize,
    objs: usize,
    cuts: &[Cut],
    named: &[u32],
    directions: &[Frac],
) -> Result<(), Stop>
    requires few { objs ≤ 100000 }
    requires many { count ≤ 100000 }
    requires entries { length directions.now ≡ count * objs }
    requires widths { All (λ cut. length cut.w ≡ objs) cuts.now }
    requires named { numbers_within (length cuts.now) named.now ≡ true }
    requires room { counter.old.taken
        + steps (all_corners (pieces count objs directions.now)
        (named_from (map stated cuts.now) named.now))
        < 2 ^ 63 }
    ensures { Runs is_held (all_corners (pieces count objs directions.now)
        (named_from (map stated cuts.now) named.now)) counter.old.taken counter.new.taken (λ _. ⊤)
        result }
{
    for (k, number) in named.iter().enumerate() {
        let cut = &cuts[*number as usize - 1];
        meets_directions(counter, count, objs, directions, cut.w.as_slice(), k + 1)?;
    }
    Ok(())
}

/// Whether the lists of a `start` entry have their lengths, where there are so many lines.
fn lists_fit(objs: u32, lines: usize, named: &[u32], point: &[Frac], directions: &[Frac]) -> bool
    requires few { objs ≤ 100000 }
    requires many { lines < 2 ^ 62 }
    ensures { result ≡ (length named.now + lines == objs && nat_le 1 (length named.now)
        && length point.now == objs && length directions.now == length named.now * objs) }
{
    let count = named.len();
    count + lines == objs as usize
        && 1 <= count
        && point.len() == objs as usize
        && directions.len() == count * objs as usize
}

/// The tests of a `start` entry, where these cuts and lines stand: the point and the directions are
/// 0 at the places of the lines, the named cuts meet in the point, and each has its direction,
/// along which it rises and the others stay. It costs twice the cube of the number of objectives.
pub fn check_start(
    problem: &Problem,
    cuts: &[Cut],
    lines: &[Vector],
    named: &[u32],
    point: &[Frac],
    directions: &[Frac],
) -> Result<(), Stop>
    requires widths { All (λ cut. length cut.w ≡ problem.now.objs) cuts.now }
    ensures { (s : State) → s.cuts ≡ map stated cuts.now
        → RunsAll is_held (start_events problem.now lines.now s named.now point.now directions.now)
        (λ _. ⊤) result }
{
    let mut counter = Steps { taken: 0 };
    let objs = problem.objs as usize;
    let count = named.len();
    pass(
        Rule::Length,
        lists_fit(problem.objs, lines.len(), named, point, directions),
    )?;
    pass(Rule::Index, are_picks(cuts.len(), named))?;
    pass(
        Rule::Corner,
        are_reduced(lines, count, objs, point, directions),
    )?;
    pass(Rule::Corner, are_normed(count, objs, directions))?;
    are_tight(&mut counter, cuts, named, point)?;
    meet_directions(&mut counter, count, objs, cuts, named, directions)
}
