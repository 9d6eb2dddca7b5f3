//! What is least for weights.
ghost use Rattle.std.specs.Prelude.{◌≡◌, ◌≤◌, ◌<◌, ◌+◌, ◌↔◌, List, All, Contains, length, map, IfErr, IfOk, IsTrue};
ghost use Rattle.exact_field.specs.Order.{same_ℚ};
ghost use Rattle.exact_field.specs.Rational.{◌<ℚ◌};
ghost use Rattle.exact_field.specs.Vector.{dot};
ghost use Rattle.log_rules.specs.Right.{IsRight, places_from};
ghost use Rattle.upper_image.specs.UpperImage.{signed};
ghost use Rattle.vlp_problem.specs.declared.problem.Dir.{Dir as ADir};
ghost use Rattle.weighing.specs.Stages.{IsPassed, IsWeighedFrom, point_items};
ghost use Rattle.weighing.specs.Walk.{AreAllWide, IsFoundFrom, IsNoLess, StopsWalk, WeighStops, WeighsTo, all_items, cone_items};
ghost use Rattle.weighing.specs.Weighing.{IsWeighed};

use crate::walk::{is_below, product, walk_directions, walk_lines, working_number};
use crate::weighed::{WeighEnd, Weighed};
use frac128::Frac;
use log_rules::{Answer, Gen, LineGen};
use src_sink::{Items, NoMemory};
use std::alloc::Global;
use vlp_problem::{Dir, Problem};

/// The products of the weights with points, before which so many items come.
fn point_products(
    alloc: Global,
    points: &[Gen],
    earlier: u64,
    w: &[Frac],
) -> Result<Items<Frac>, WeighEnd>
    requires few { earlier + length points.now ≤ 12884901882 }
    requires wide { All (λ g. length w.now ≡ length g.y) points.now }
    ensures values { IfOk result (λ values. values ≡ map (λ g. dot w.now g.y) points.now) }
    ensures passed { IfOk result (λ values. (dir : ADir) →
        All (IsPassed dir w.now) (point_items points.now)) }
    ensures left { IfErr result (λ end. (dir : ADir) →
        StopsWalk dir w.now (point_items points.now) earlier end) }
{
    let mut values = Items::new(alloc);
    for (index, point) in points.iter().enumerate() {
        let value = product(w, point.y.as_slice(), earlier + index as u64 + 1)?;
        values.push(value)?;
    }
    Ok(values)
}

/// The least of some values, or the greatest where the file maximises.
fn find_best(direction: Dir, values: &[Frac]) -> Frac
    requires { 0 < length values.now }
    ensures least { All (λ value. IsNoLess direction value result) values.now }
    ensures one { Contains values.now result }
{
    let mut found = values[0];
    for value in values {
        if is_below(
            working_number(direction, *value),
            working_number(direction, found),
        ) {
            found = *value;
        }
    }
    found
}

/// The places of a value, counted from 1.
fn places_of(alloc: Global, values: &Items<Frac>, value: Frac) -> Result<Items<u32>, NoMemory>
    ensures { IfOk result (λ places.
        places ≡ places_from 1 (map (λ other. same_ℚ other value) values.now)) }
{
    let list = values.as_slice();
    let mut places = Items::new(alloc);
    for (index, other) in list.iter().enumerate() {
        if *other == value {
            places.push(index as u32 + 1)?;
        }
    }
    Ok(places)
}

/// The least value of points and those that have it, where neither a line nor a direction ends the
/// work.
fn weigh_points(
    alloc: Global,
    direction: Dir,
    points: &[Gen],
    earlier: u64,
    w: &[Frac],
) -> Result<Weighed, WeighEnd>
    requires some { 0 < length points.now }
    requires few { earlier + length points.now ≤ 12884901882 }
    requires wide { All (λ g. length w.now ≡ length g.y) points.now }
    ensures ok { IfOk result (IsFoundFrom direction w.now points.now) }
    ensures left { IfErr result (StopsWalk direction w.now (point_items points.now) earlier) }
{
    let values = point_products(alloc, points, earlier, w)?;
    let value = find_best(direction, values.as_slice());
    Ok(Weighed::Least {
        value,
        points: places_of(alloc, &values, value)?,
    })
}

/// What is least where no line ends the work: by the directions and the points, before which so
/// many items come.
fn weigh_cone(
    alloc: Global,
    direction: Dir,
    directions: &[Gen],
    points: &[Gen],
    earlier: u64,
    w: &[Frac],
) -> Result<Weighed, WeighEnd>
    requires some { 0 < length points.now }
    requires few { earlier ≤ 4294967294 }
    requires few_directions { length directions.now ≤ 4294967294 }
    requires few_points { length points.now ≤ 4294967294 }
    requires directions_wide { All (λ g. length w.now ≡ length g.y) directions.now }
    requires points_wide { All (λ g. length w.now ≡ length g.y) points.now }
    ensures ok { IfOk result
        (WeighsTo direction w.now (cone_items directions.now points.now) points.now) }
    ensures left { IfErr result
        (StopsWalk direction w.now (cone_items directions.now points.now) earlier) }
{
    match walk_directions(alloc, direction, directions, earlier, w)? {
        Some(d) => Ok(Weighed::Unbounded { d }),
        None => weigh_points(
            alloc,
            direction,
            points,
            earlier + directions.len() as u64,
            w,
        ),
    }
}

/// What is least in the image that lines, points and directions span.
fn weigh_image(
    alloc: Global,
    direction: Dir,
    lines: &[LineGen],
    directions: &[Gen],
    points: &[Gen],
    w: &[Frac],
) -> Result<Weighed, WeighEnd>
    requires some { 0 < length points.now }
    requires few_lines { length lines.now ≤ 4294967294 }
    requires few_directions { length directions.now ≤ 4294967294 }
    requires few_points { length points.now ≤ 4294967294 }
    requires wide { AreAllWide (length w.now) lines.now directions.now points.now }
    ensures ok { IfOk result
        (WeighsTo direction w.now (all_items lines.now directions.now points.now) points.now) }
    ensures left { IfErr result
        (StopsWalk direction w.now (all_items lines.now directions.now points.now) 0) }
{
    match walk_lines(alloc, direction, lines, w)? {
        Some(d) => Ok(Weighed::Unbounded { d }),
        None => weigh_cone(alloc, direction, directions, points, lines.len() as u64, w),
    }
}

/// What is least for the weights in the image of a right answer, by its lines, directions and
/// points. It costs a product with each of them, up to the first line or direction along which the
/// value goes down for ever.
pub fn weigh(
    alloc: Global,
    problem: &Problem,
    answer: &Answer,
    w: &[Frac],
) -> Result<Weighed, WeighEnd>
    requires counted { length w.now ≡ problem.now.objs }
    requires right { IsRight problem.now answer.now }
    ensures from { IfOk result (IsWeighedFrom problem.now answer.now w.now) }
    ensures least { IfOk result (IsWeighed problem.now answer.now w.now) }
    ensures left { IfErr result (WeighStops problem.now answer.now w.now) }
{
    match answer {
        Answer::Infeasible { .. } => Ok(Weighed::Empty),
        Answer::Whole { .. } => Ok(Weighed::Whole),
        Answer::Solved {
            c: _,
            lines,
            points,
            directions,
            facets: _,
        } => weigh_image(
            alloc,
            problem.dir,
            lines.as_slice(),
            directions.as_slice(),
            points.as_slice(),
            w,
        ),
    }
}
