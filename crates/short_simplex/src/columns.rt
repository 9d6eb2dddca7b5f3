//! Rows and columns of the tableau.
use crate::solver::Solver;
use exact_field::Field;
use short_basis::{Halt, Number, Shared, shared_of, zeros};
use short_programs::{sum_of_rows, take_column};
use whole_programs::{Spot, at, item, put};

impl<F: Field> Solver<F> {
    /// The sum of these multiples of the equations, outside the basis.
    pub(crate) fn write_row(&mut self, multiples: &[i128]) -> Result<Vec<Spot>, Halt> {
        sum_of_rows(
            self.alloc,
            &mut self.row,
            &self.program,
            &self.places,
            multiples,
        )
    }

    /// A row of the inverse over one denominator.
    pub(crate) fn inverse_row(&self, slot: usize) -> Result<Shared, Halt> {
        let mut unit = zeros(self.alloc, self.slots.len())?;
        put(&mut unit, slot, Number::one())?;
        shared_of(self.alloc, &self.basis.solve_rows(unit)?)
    }

    /// A column of the tableau.
    pub(crate) fn column(&self, variable: usize) -> Result<Vec<Number<F>>, Halt> {
        let mut b = zeros(self.alloc, self.slots.len())?;
        take_column(&mut b, &self.program, variable, Number::one().negative())?;
        self.basis.solve(b)
    }

    /// How many entries a variable has.
    pub(crate) fn entries(&self, variable: usize) -> Result<usize, Halt> {
        match self.program.own_row(variable)? {
            Some(row) => Ok(item(self.program.rows(), row)?.spots.len()),
            None => Ok(self.program.column(variable)?.len()),
        }
    }

    /// Whether a variable outside the basis can move upwards, or downwards.
    pub(crate) fn can_move(&self, variable: usize, upwards: bool) -> Result<bool, Halt> {
        let place = at(&self.places, variable)?;
        Ok(at(&self.bounds, variable)?.can_move(place, upwards))
    }
}
