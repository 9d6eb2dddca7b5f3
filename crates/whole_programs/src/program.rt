//! The programs that are solved.
use crate::lists::{at, item};
use crate::stop::Stop;
use crate::whole::{Ratio, common_multiple, entry};
use exact_field::Field;
use std::alloc::Global;

/// A number of the field at a variable.
#[derive(Clone, Copy, Debug)]
pub struct Term<F> {
    /// The variable, from 0.
    pub at: usize,
    pub value: F,
}

/// A whole number at a place, from 0.
#[derive(Clone, Copy, Debug)]
pub struct Spot {
    pub at: usize,
    pub value: i128,
}

/// A row: its own variable is the product of the spots' values with the variables at their places.
#[derive(Debug, Drop)]
pub struct Row {
    pub variable: usize,
    /// What makes the values whole.
    pub scale: i128,
    pub spots: Vec<Spot>,
}

/// The rows of a program, and its variables. Each is the value of a row, or has a column.
#[derive(Debug, Drop)]
pub struct Program {
    alloc: Global,
    /// For each variable the row that it is the value of.
    own_rows: Vec<Option<usize>>,
    /// For each variable its spots in the rows, if it is not the value of one.
    columns: Vec<Vec<Spot>>,
    rows: Vec<Row>,
}

/// The least common denominator of terms.
fn scale_of<F: Field>(terms: &[Term<F>]) -> Result<i128, Stop> {
    let mut scale = 1;
    for term in terms {
        scale = entry(common_multiple(scale, term.value.den())?)?;
    }
    Ok(scale)
}

/// The terms of a row, made whole.
fn spots_of<F: Field>(alloc: Global, terms: &[Term<F>], scale: i128) -> Result<Vec<Spot>, Stop> {
    let mut spots = Vec::new(alloc);
    for term in terms {
        let at = term.at;
        let value = entry(Ratio::times(term.value, scale)?.at_unit(1)?)?;
        spots.push(Spot { at, value })?;
    }
    Ok(spots)
}

/// Appends a spot to a column.
fn push_at(columns: &mut [Vec<Spot>], at: usize, spot: Spot) -> Result<(), Stop> {
    if at < columns.len() {
        columns[at].push(spot)?;
        Ok(())
    } else {
        Err(Stop::Declined)
    }
}

impl Program {
    /// The program without a variable.
    pub fn new(alloc: Global) -> Program {
        Program {
            alloc,
            own_rows: Vec::new(alloc),
            columns: Vec::new(alloc),
            rows: Vec::new(alloc),
        }
    }

    /// How many variables there are.
    pub fn count(&self) -> usize {
        self.own_rows.len()
    }

    /// The rows.
    pub fn rows(&self) -> &[Row] {
        self.rows.as_slice()
    }

    /// For each variable the row that it is the value of.
    pub fn own_rows(&self) -> &[Option<usize>] {
        self.own_rows.as_slice()
    }

    /// The spots of a variable that is not the value of a row.
    pub fn column(&self, variable: usize) -> Result<&[Spot], Stop> {
        Ok(item(&self.columns, variable)?.as_slice())
    }

    /// The row that a variable is the value of.
    pub fn own_row(&self, variable: usize) -> Result<Option<usize>, Stop> {
        at(&self.own_rows, variable)
    }

    /// Appends a variable that is not the value of a row, and answers its number, from 0.
    pub fn push_variable(&mut self) -> Result<usize, Stop> {
        self.push_own(None)
    }

    fn push_own(&mut self, row: Option<usize>) -> Result<usize, Stop> {
        let variable = self.own_rows.len();
        self.own_rows.push(row)?;
        self.columns.push(Vec::new(self.alloc))?;
        Ok(variable)
    }

    /// Appends a row with its variable, and answers the variable. It declines where a value is too
    /// long once the row's are whole, and then the program stays as it is.
    pub fn push_row<F: Field>(&mut self, terms: &[Term<F>]) -> Result<usize, Stop> {
        let scale = scale_of(terms)?;
        let spots = spots_of(self.alloc, terms, scale)?;
        let row = self.rows.len();
        for spot in &spots {
            let value = spot.value;
            push_at(&mut self.columns, spot.at, Spot { at: row, value })?;
        }
        let variable = self.push_own(Some(row))?;
        self.rows.push(Row {
            variable,
            scale,
            spots,
        })?;
        Ok(variable)
    }

    /// By what the value of a variable is multiplied: the scale of its row.
    pub fn scale(&self, variable: usize) -> Result<i128, Stop> {
        match self.own_row(variable)? {
            None => Ok(1),
            Some(row) => Ok(item(&self.rows, row)?.scale),
        }
    }
}
