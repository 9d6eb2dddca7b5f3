//! What rows are sorted by: corners of a box by their entries, other points by how far from the
//! mean of all they lie, and else rows by their angles with the mean of all.

use exact_field::Field;
use frac128::{Frac, Vector, is_zero};
use src_sink::NoMemory;
use std::alloc::Global;

/// What rows are sorted by. Of the numbers, one for each row, `None` stands for the least.
#[derive(Drop)]
pub(crate) enum Keys {
    /// Their entries, as corners of a box.
    Corners,
    /// How near to their mean points lie, in units that are the same for all.
    Nearness(Vec<Option<i64>>),
    /// The squares of the cosines of the angles with the mean of all rows, with the signs of the
    /// cosines, in units that are the same for all.
    Cosines(Vec<Option<i128>>),
}

/// How many steps each entry of a row has, cut to whole numbers.
type Steps = Vec<i64>;

/// How many steps a row's entry of greatest magnitude has, with a minus, where angles are compared.
const ANGLE_STEPS: i64 = -65_536;

/// How many steps the greatest magnitude of all points has at most, with a minus. All numbers up to
/// 24 divide it, so that fractions of small numbers are whole.
const POINT_STEPS: i64 = -5_354_228_880;

/// The negative of a number's magnitude.
fn below_zero(x: Frac) -> Frac {
    if x.sign() > 0 { x.neg() } else { x }
}

/// The negative of the greatest magnitude among the entries.
fn lowest(row: &[Frac]) -> Frac {
    let mut low = Frac::from(0);
    for entry in row {
        low = low.min(below_zero(*entry));
    }
    low
}

/// How many steps a unit has, where the number of least value has so many. `None` where that is 0,
/// or the number is not held.
fn per_unit(low: Frac, steps: i64) -> Option<Frac> {
    if is_zero(low) {
        return None;
    }
    Frac::from(steps).times(low.reciprocal())
}

/// A positive number cut to a whole one, if that is not 0.
fn whole_part(x: Frac) -> Frac {
    match i64::try_from(x.num() / x.den()) {
        Ok(whole) if whole > 0 => Frac::from(whole),
        _ => x,
    }
}

/// The steps of a row. `None` where a number is not held.
fn steps_of(alloc: Global, row: &[Frac], per_unit: Frac) -> Result<Option<Steps>, NoMemory> {
    let mut steps = Vec::with_capacity(alloc, row.len())?;
    for entry in row {
        let Some(count) = entry.times(per_unit) else {
            return Ok(None);
        };
        let Ok(whole) = i64::try_from(count.num() / count.den()) else {
            return Ok(None);
        };
        steps.push(whole)?;
    }
    Ok(Some(steps))
}

/// The steps of each row by which angles are compared, 65,536 for the row's greatest magnitude.
fn angle_steps(alloc: Global, rows: &[Vector]) -> Result<Vec<Option<Steps>>, NoMemory> {
    let mut all = Vec::with_capacity(alloc, rows.len())?;
    for row in rows {
        let steps = match per_unit(lowest(row.as_slice()), ANGLE_STEPS) {
            Some(by) => steps_of(alloc, row.as_slice(), by)?,
            None => None,
        };
        all.push(steps)?;
    }
    Ok(all)
}

/// The steps of each point, with as many for a unit.
fn point_steps(alloc: Global, rows: &[Vector]) -> Result<Vec<Option<Steps>>, NoMemory> {
    let mut low = Frac::from(0);
    for row in rows {
        low = low.min(lowest(row.as_slice()));
    }
    let by = per_unit(low, POINT_STEPS).map(whole_part);
    let mut all = Vec::with_capacity(alloc, rows.len())?;
    for row in rows {
        let steps = match by {
            Some(by) => steps_of(alloc, row.as_slice(), by)?,
            None => None,
        };
        all.push(steps)?;
    }
    Ok(all)
}

/// Adds numbers to the sums at the same places, up to the greatest number of the type.
fn add_steps(sums: &mut [i64], steps: &[i64]) {
    for (sum, count) in sums.iter_mut().zip(steps) {
        *sum = sum.saturating_add(*count);
    }
}

/// The sum of the products at the same places, up to the greatest number of the type.
fn product(a: &[i64], b: &[i64]) -> i64 {
    let mut sum = 0i64;
    for (x, y) in a.iter().zip(b) {
        sum = sum.saturating_add(x.saturating_mul(*y));
    }
    sum
}

/// The sum of all rows in their steps.
fn mean_of(alloc: Global, rows: &[Vector], all: &[Option<Steps>]) -> Result<Steps, NoMemory> {
    let mut sums = Vec::new(alloc);
    if let Some(row) = rows.first() {
        for _ in row.as_slice() {
            sums.push(0)?;
        }
    }
    for steps in all.iter().flatten() {
        add_steps(&mut sums, steps);
    }
    Ok(sums)
}

/// The square of the cosine of the angle between a row and another vector, with the sign of the
/// cosine, in units that are the same for all rows.
fn cosine(steps: &[i64], to: &[i64]) -> i128 {
    let along = i128::from(product(steps, to));
    let size = i128::from(product(steps, steps).max(1));
    let square = along.saturating_mul(along) / size;
    if along < 0 {
        square.saturating_neg()
    } else {
        square
    }
}

/// Whether one row is the negative of the other.
fn are_opposite(a: &[Frac], b: &[Frac]) -> bool {
    a.iter().zip(b).all(|(x, y)| *x == y.neg())
}

/// Whether the row before or after a row is its negative, as of an equation or a line.
fn goes_both_ways(rows: &[Vector], k: usize) -> bool {
    let Some(row) = rows.get(k) else {
        return false;
    };
    let is_other = |i: usize| {
        rows.get(i)
            .is_some_and(|other| are_opposite(row.as_slice(), other.as_slice()))
    };
    is_other(k.saturating_add(1)) || k.checked_sub(1).is_some_and(is_other)
}

/// For each row the square of the cosine of its angle with the mean of all; `None` for rows that go
/// both ways, and for those without steps.
fn cosines(alloc: Global, rows: &[Vector]) -> Result<Vec<Option<i128>>, NoMemory> {
    let all = angle_steps(alloc, rows)?;
    let mean = mean_of(alloc, rows, &all)?;
    let mut keys = Vec::with_capacity(alloc, rows.len())?;
    for (k, steps) in all.iter().enumerate() {
        let key = if goes_both_ways(rows, k) {
            None
        } else {
            steps.as_ref().map(|steps| cosine(steps, &mean))
        };
        keys.push(key)?;
    }
    Ok(keys)
}

/// Whether all rows are points.
fn are_points(gens: bool, rows: &[Vector]) -> bool {
    gens && rows.iter().all(|row| row.as_slice().last().is_some_and(|last| !is_zero(*last)))
}

/// Whether rows have two values at a place, or one.
fn has_two_values(rows: &[Vector], k: usize) -> bool {
    let entries = || rows.iter().filter_map(|row| row.as_slice().get(k));
    let first = entries().next();
    let other = entries().find(|x| Some(*x) != first);
    entries().all(|x| Some(x) == first || Some(x) == other)
}

/// Whether points are corners of a box: at each place they have two values at most.
fn are_corners(rows: &[Vector]) -> bool {
    let width = rows.first().map_or(0, |row| row.as_slice().len());
    (0..width).all(|k| has_two_values(rows, k))
}

/// The sum of the distances of a point's entries from those of the mean, times the number of
/// points, with a minus: the less it is, the farther out the point lies.
fn nearness(steps: &[i64], sums: &[i64], count: i64) -> i64 {
    let mut near = 0i64;
    for (x, sum) in steps.iter().zip(sums) {
        let from = x.saturating_mul(count).saturating_sub(*sum);
        near = near.saturating_add(from.min(from.saturating_neg()));
    }
    near
}

/// For each point how near to the mean of all it lies; `None` for those without steps.
fn nearness_of_all(alloc: Global, rows: &[Vector]) -> Result<Vec<Option<i64>>, NoMemory> {
    let all = point_steps(alloc, rows)?;
    let sums = mean_of(alloc, rows, &all)?;
    let count = i64::try_from(rows.len()).unwrap_or(i64::MAX);
    let mut keys = Vec::with_capacity(alloc, rows.len())?;
    for steps in all.iter() {
        keys.push(steps.as_ref().map(|steps| nearness(steps, &sums, count)))?;
    }
    Ok(keys)
}

/// What the rows of a text are sorted by, `gens` where it lists points, directions and lines. The
/// cost is that of a few operations for each entry.
pub(crate) fn keys_of(alloc: Global, gens: bool, rows: &[Vector]) -> Result<Keys, NoMemory> {
    if !are_points(gens, rows) {
        return Ok(Keys::Cosines(cosines(alloc, rows)?));
    }
    if are_corners(rows) {
        return Ok(Keys::Corners);
    }
    Ok(Keys::Nearness(nearness_of_all(alloc, rows)?))
}
