//! What is minimised.
use crate::solver::Solver;
use exact_field::Field;
use short_basis::{Halt, Number, Part, zeros};
use short_programs::Bounds;
use whole_programs::{at, put};

impl<F: Field> Solver<F> {
    /// Makes a variable the one that is minimised, besides those that are already.
    pub(crate) fn add_factor(&mut self, variable: usize) -> Result<(), Halt> {
        put(&mut self.factors, variable, Number::one())?;
        self.refresh(false)
    }

    /// Makes a sum of multiples of variables what is minimised.
    pub(crate) fn set_sum(&mut self, parts: &[Part<F>]) -> Result<(), Halt> {
        self.factors = zeros(self.alloc, self.program.count())?;
        for part in parts {
            let scale = Number::whole(self.program.scale(part.at)?);
            let factor = part.value.quotient(scale);
            let old = at(&self.factors, part.at)?;
            put(&mut self.factors, part.at, old.plus(factor))?;
        }
        self.refresh(false)?;
        if !self.has_costs() {
            self.refresh(true)?;
        }
        Ok(())
    }

    /// Whether nothing is minimised.
    pub(crate) fn has_no_factors(&self) -> bool {
        for factor in &self.factors {
            if !factor.is_zero() {
                return false;
            }
        }
        true
    }

    /// Makes a sum of columns what is minimised that has its least value where all are at bounds.
    pub(crate) fn set_fitting_sum(&mut self, bounds: &[Bounds<F>]) -> Result<(), Halt> {
        for (variable, bounds) in bounds.iter().enumerate() {
            let is_column = self.program.own_row(variable)?.is_none();
            let factor = match (bounds.low, bounds.high) {
                (Some(_), _) if is_column => Number::one(),
                (None, Some(_)) if is_column => Number::one().negative(),
                _ => Number::zero(),
            };
            put(&mut self.factors, variable, factor)?;
        }
        Ok(())
    }

    /// Makes nothing what is minimised.
    pub(crate) fn clear_sum(&mut self) -> Result<(), Halt> {
        self.factors = zeros(self.alloc, self.program.count())?;
        self.costs = zeros(self.alloc, self.program.count())?;
        Ok(())
    }

    /// Whether the costs have the signs that the places ask for.
    pub(crate) fn has_right_costs(&self) -> Result<bool, Halt> {
        for (variable, cost) in self.costs.iter().enumerate() {
            let sign = cost.sign()?;
            if sign != 0 && self.can_move(variable, sign < 0)? {
                return Ok(false);
            }
        }
        Ok(true)
    }
}
