//! The values at a new question.
use crate::solver::Solver;
use crate::variable::Variable;
use std::alloc::Global;
use whole_programs::{
    Limits, Place, Program, Ratio, Spot, Stop, at, difference, item, plus_product, put,
};

/// A multiple of a unit that is one of a bound's denominator too.
fn unit_with(unit: i128, limit: Option<Ratio>) -> Result<i128, Stop> {
    match limit {
        None => Ok(unit),
        Some(limit) => limit.unit_with(unit),
    }
}

/// A bound over the unit.
fn limit_at(limit: Option<Ratio>, unit: i128) -> Result<Option<i128>, Stop> {
    match limit {
        None => Ok(None),
        Some(limit) => Ok(Some(limit.at_unit(unit)?)),
    }
}

/// Where a variable outside the basis goes.
fn place_outside(low: Option<i128>, high: Option<i128>, cost: i128) -> (Place, i128) {
    match (low, high) {
        (None, None) => (Place::Free, 0),
        (Some(low), None) => (Place::Low, low),
        (None, Some(high)) => (Place::High, high),
        (Some(low), Some(high)) => {
            if cost < 0 {
                (Place::High, high)
            } else {
                (Place::Low, low)
            }
        }
    }
}

/// A variable with these bounds: outside the basis it goes to one, and of two to that which its
/// cost asks for.
fn settle_at(place: Place, low: Option<i128>, high: Option<i128>, cost: i128) -> Variable {
    let (place, at) = if place == Place::Basic {
        (place, 0)
    } else {
        place_outside(low, high, cost)
    };
    Variable {
        place,
        low,
        high,
        at,
    }
}

/// What the variables outside the basis leave of each row.
fn right_sides(
    alloc: Global,
    program: &Program,
    variables: &[Variable],
) -> Result<Vec<i128>, Stop> {
    let mut right = vec![in alloc; 0; program.rows().len()]?;
    for (j, variable) in variables.iter().enumerate() {
        if variable.is_basic() || variable.at == 0 {
            continue;
        }
        match program.own_row(j)? {
            Some(row) => {
                let old = at(&right, row)?;
                put(&mut right, row, difference(old, variable.at)?)?;
            }
            None => add_column(&mut right, program.column(j)?, variable.at)?,
        }
    }
    Ok(right)
}

/// Adds a multiple of a column.
fn add_column(right: &mut [i128], column: &[Spot], value: i128) -> Result<(), Stop> {
    for spot in column {
        let old = at(right, spot.at)?;
        put(right, spot.at, plus_product(old, spot.value, value))?;
    }
    Ok(())
}

/// The product of two vectors.
fn dot(one: &[i128], other: &[i128]) -> i128 {
    let mut sum = 0;
    for (x, y) in one.iter().zip(other) {
        if *x != 0 {
            sum = plus_product(sum, *x, *y);
        }
    }
    sum
}

impl Solver {
    /// Puts the variables outside the basis to their bounds, and calculates the values of the
    /// others.
    pub(crate) fn settle(&mut self, limits: &[Limits]) -> Result<(), Stop> {
        let mut unit = 1;
        for limit in limits {
            unit = unit_with(unit_with(unit, limit.low)?, limit.high)?;
        }
        self.unit = unit;
        self.settle_variables(limits)?;
        let right = right_sides(self.alloc, &self.program, &self.variables)?;
        let mut values = Vec::new(self.alloc);
        for row in &self.inverse {
            values.push(dot(row, &right))?;
        }
        self.values = values;
        Ok(())
    }

    fn settle_variables(&mut self, limits: &[Limits]) -> Result<(), Stop> {
        let mut variables = Vec::new(self.alloc);
        for (j, limits) in limits.iter().enumerate() {
            let low = limit_at(limits.low, self.unit)?;
            let high = limit_at(limits.high, self.unit)?;
            let place = item(&self.variables, j)?.place;
            let cost = at(&self.costs, j)?;
            variables.push(settle_at(place, low, high, cost))?;
        }
        self.variables = variables;
        Ok(())
    }
}
