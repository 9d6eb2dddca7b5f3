//! The products of weights with the lines and the directions of an answer, up to the first that
//! ends the work.
ghost use Rattle.std.specs.Prelude.{◌≡◌, ◌≤◌, ◌+◌, ◌↔◌, List, All, length, map, IfErr, IfOk, IsTrue};
ghost use Rattle.exact_field.specs.Rational.{zero_ℚ, ◌<ℚ◌};
ghost use Rattle.exact_field.specs.Vector.{dot};
ghost use Rattle.polyhedra.specs.Negatives.{negated};
ghost use Rattle.upper_image.specs.UpperImage.{signed};
ghost use Rattle.weighing.specs.Stages.{IsTaken, line_items, direction_items};
ghost use Rattle.weighing.specs.Walk.{IsProductLeft, IsWalked, StopsWalk, way_of};

use crate::weighed::WeighEnd;
use exact_field::Field;
use frac128::{Frac, Vector};
use lin_rows::dot;
use log_rules::{Gen, LineGen};
use src_sink::{Items, NoMemory};
use std::alloc::Global;
use vlp_problem::Dir;

/// The product of the weights with an item, by its number.
pub(crate) fn product(w: &[Frac], v: &[Frac], item: u64) -> Result<Frac, WeighEnd>
    requires { length w.now ≡ length v.now }
    ensures ok { IfOk result (λ value. value ≡ dot w.now v.now) }
    ensures taken { IfOk result (λ value. IsTaken w.now v.now) }
    ensures left { IfErr result (IsProductLeft w.now v.now item) }
{
    match dot(w, v) {
        Ok(value) => Ok(value),
        Err(left) => Err(WeighEnd::Left { item, left }),
    }
}

/// A number in working coordinates: its negative where the file maximises.
pub(crate) fn working_number(direction: Dir, value: Frac) -> Frac
    ensures { result ≡ signed direction value }
{
    match direction {
        Dir::Min => value,
        Dir::Max => value.neg(),
    }
}

/// Whether a number is below another.
pub(crate) fn is_below(a: Frac, b: Frac) -> bool
    ensures { IsTrue result ↔ (a <ℚ b) }
{
    a < b
}

/// Whether a value goes down.
fn is_down(direction: Dir, value: Frac) -> bool
    ensures { IsTrue result ↔ (signed direction value <ℚ zero_ℚ) }
{
    is_below(working_number(direction, value), Frac::zero())
}

fn is_zero(value: Frac) -> bool
    ensures { IsTrue result ↔ (value ≡ zero_ℚ) }
{
    value == Frac::zero()
}

/// A copy of a vector.
fn copy_of(alloc: Global, v: &[Frac]) -> Result<Vector, NoMemory>
    ensures { IfOk result (λ copy. copy ≡ v.now) }
{
    let mut copy = Items::new(alloc);
    copy.append(v)?;
    Ok(copy)
}

/// The negative of a vector.
fn negative(alloc: Global, v: &[Frac]) -> Result<Vector, NoMemory>
    ensures { IfOk result (λ negative. negative ≡ negated v.now) }
{
    let mut negative = Items::new(alloc);
    for entry in v {
        negative.push(entry.neg())?;
    }
    Ok(negative)
}

/// Of the two ways along a line whose product with the weights is not 0, that which goes down.
fn way_down(alloc: Global, direction: Dir, value: Frac, d: &[Frac]) -> Result<Vector, NoMemory>
    ensures { IfOk result (λ way. way ≡ way_of direction value d.now) }
{
    if is_down(direction, value) {
        copy_of(alloc, d)
    } else {
        negative(alloc, d)
    }
}

/// The way down along the first line whose product with the weights is not 0, if there is one.
pub(crate) fn walk_lines(
    alloc: Global,
    direction: Dir,
    lines: &[LineGen],
    w: &[Frac],
) -> Result<Option<Vector>, WeighEnd>
    requires few { length lines.now ≤ 4294967294 }
    requires wide { All (λ l. length w.now ≡ length l.d) lines.now }
    ensures ok { IfOk result (IsWalked direction w.now (line_items lines.now)) }
    ensures left { IfErr result (StopsWalk direction w.now (line_items lines.now) 0) }
{
    for (index, line) in lines.iter().enumerate() {
        let d = line.d.as_slice();
        let value = product(w, d, index as u64 + 1)?;
        if !is_zero(value) {
            return Ok(Some(way_down(alloc, direction, value, d)?));
        }
    }
    Ok(None)
}

/// The first direction whose product with the weights goes down, if there is one. So many items
/// come before the directions.
pub(crate) fn walk_directions(
    alloc: Global,
    direction: Dir,
    directions: &[Gen],
    earlier: u64,
    w: &[Frac],
) -> Result<Option<Vector>, WeighEnd>
    requires few { earlier + length directions.now ≤ 8589934588 }
    requires wide { All (λ g. length w.now ≡ length g.y) directions.now }
    ensures ok { IfOk result (IsWalked direction w.now (direction_items directions.now)) }
    ensures left { IfErr result
        (StopsWalk direction w.now (direction_items directions.now) earlier) }
{
    for (index, generator) in directions.iter().enumerate() {
        let d = generator.y.as_slice();
        let value = product(w, d, earlier + index as u64 + 1)?;
        if is_down(direction, value) {
            return Ok(Some(copy_of(alloc, d)?));
        }
    }
    Ok(None)
}
