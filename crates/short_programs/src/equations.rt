//! The equations that say what the rows' variables are: each row's variable less the row is 0.
use exact_field::Field;
use short_basis::{Halt, Number, short};
use std::alloc::Global;
use whole_programs::{Line, Place, Program, Row, Spot, at, put};

/// The column of a variable in the equations.
fn column_of(alloc: Global, program: &Program, variable: usize) -> Result<Vec<Spot>, Halt> {
    let mut column = Vec::new(alloc);
    match program.own_row(variable)? {
        Some(row) => column.push(Spot { at: row, value: 1 })?,
        None => {
            for spot in program.column(variable)? {
                column.push(Spot {
                    at: spot.at,
                    value: 0i128.saturating_sub(spot.value),
                })?;
            }
        }
    }
    Ok(column)
}

/// The columns of some variables.
pub fn columns_of(
    alloc: Global,
    program: &Program,
    variables: &[usize],
) -> Result<Vec<Vec<Spot>>, Halt> {
    let mut columns = Vec::new(alloc);
    for variable in variables {
        columns.push(column_of(alloc, program, *variable)?)?;
    }
    Ok(columns)
}

/// Takes a multiple of the column of a variable from numbers by rows.
pub fn take_column<F: Field>(
    list: &mut [Number<F>],
    program: &Program,
    variable: usize,
    factor: Number<F>,
) -> Result<(), Halt> {
    if let Some(row) = program.own_row(variable)? {
        let old = at(list, row)?;
        return Ok(put(list, row, old.less(factor))?);
    }
    let negative = factor.negative();
    for spot in program.column(variable)? {
        let old = at(list, spot.at)?;
        let value = Number::whole(spot.value);
        put(list, spot.at, old.less_product(value, negative))?;
    }
    Ok(())
}

/// Takes a product from the number of a variable, unless it is basic.
fn take_product(
    line: &mut Line,
    places: &[Place],
    variable: usize,
    x: i128,
    y: i128,
) -> Result<(), Halt> {
    if at(places, variable)? == Place::Basic {
        return Ok(());
    }
    Ok(line.take_product(variable, x, y)?)
}

/// Adds a multiple of a row of the equations, outside the basis.
fn add_row(line: &mut Line, places: &[Place], row: &Row, factor: i128) -> Result<(), Halt> {
    take_product(line, places, row.variable, factor, -1)?;
    for spot in &row.spots {
        take_product(line, places, spot.at, factor, spot.value)?;
    }
    Ok(())
}

/// The sum of these multiples of the equations, outside the basis: sums modulo 2^128, which are
/// right where they are short.
pub fn sum_of_rows(
    alloc: Global,
    line: &mut Line,
    program: &Program,
    places: &[Place],
    multiples: &[i128],
) -> Result<Vec<Spot>, Halt> {
    line.clear()?;
    for (row, factor) in program.rows().iter().zip(multiples) {
        if *factor != 0 {
            add_row(line, places, row, *factor)?;
        }
    }
    let mut spots = Vec::new(alloc);
    for place in &line.places {
        let value = short(at(&line.numbers, *place)?)?;
        if value != 0 {
            spots.push(Spot { at: *place, value })?;
        }
    }
    Ok(spots)
}
