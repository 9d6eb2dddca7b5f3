//! Values and costs from the basis alone.
use crate::solver::Solver;
use exact_field::Field;
use short_basis::{Basis, Halt, Number, numerator_at, shared_of, short, unit_with, zeros};
use short_programs::{Bounds, columns_of, take_column};
use whole_programs::{Place, at, difference, product, put, quotient};

impl<F: Field> Solver<F> {
    /// Calculates values and costs from the basis alone, which is factored anew if so wanted.
    pub(crate) fn refresh(&mut self, anew: bool) -> Result<(), Halt> {
        if anew {
            let columns = columns_of(self.alloc, &self.program, &self.slots)?;
            self.basis = Basis::of(self.alloc, &columns)?;
        }
        self.right = self.right_sides()?;
        self.values = self.basis.solve(self.right.clone()?)?;
        self.price()
    }

    /// What the variables outside the basis leave of each row.
    fn right_sides(&self) -> Result<Vec<Number<F>>, Halt> {
        let mut right = zeros(self.alloc, self.slots.len())?;
        for (variable, value) in self.outside.iter().enumerate() {
            if !value.is_zero() && at(&self.places, variable)? != Place::Basic {
                take_column(&mut right, &self.program, variable, *value)?;
            }
        }
        Ok(right)
    }

    /// Calculates the costs.
    fn price(&mut self) -> Result<(), Halt> {
        let mut any = false;
        let mut basic = Vec::new(self.alloc);
        for variable in &self.slots {
            let factor = at(&self.factors, *variable)?;
            any = any || !factor.is_zero();
            basic.push(factor)?;
        }
        self.costs = self.factors.clone()?;
        if any {
            let prices = self.basis.solve_rows(basic)?;
            self.write_costs(&prices)?;
        }
        for variable in &self.slots {
            put(&mut self.costs, *variable, Number::zero())?;
        }
        Ok(())
    }

    /// Takes the prices of the rows from the costs, over one denominator where that is short.
    fn write_costs(&mut self, prices: &[Number<F>]) -> Result<(), Halt> {
        match self.take_shared(prices) {
            Ok(()) => Ok(()),
            Err(Halt::NoMemory) => Err(Halt::NoMemory),
            Err(Halt::Long | Halt::Singular) => self.take_prices(prices),
        }
    }

    /// The costs over one denominator.
    fn take_shared(&mut self, prices: &[Number<F>]) -> Result<(), Halt> {
        let shared = shared_of(self.alloc, prices)?;
        let mut unit = shared.by;
        for factor in &self.factors {
            unit = unit_with(unit, *factor)?;
        }
        let more = quotient(unit, shared.by)?;
        for spot in self.write_row(&shared.numbers)? {
            let own = numerator_at(at(&self.factors, spot.at)?, unit)?;
            let cost = short(difference(own, product(spot.value, more)?)?)?;
            put(&mut self.costs, spot.at, Number::over(cost, unit))?;
        }
        Ok(())
    }

    /// The costs over fractions.
    fn take_prices(&mut self, prices: &[Number<F>]) -> Result<(), Halt> {
        self.costs = self.factors.clone()?;
        for (row, price) in self.program.rows().iter().zip(prices) {
            if price.is_zero() {
                continue;
            }
            let own = at(&self.costs, row.variable)?;
            put(&mut self.costs, row.variable, own.less(*price))?;
            let negative = price.negative();
            for spot in &row.spots {
                let old = at(&self.costs, spot.at)?;
                let value = Number::whole(spot.value);
                put(&mut self.costs, spot.at, old.less_product(value, negative))?;
            }
        }
        Ok(())
    }

    /// Puts the variables outside the basis to their bounds, of two to that which the cost asks
    /// for, and calculates the values of the others.
    pub(crate) fn settle(&mut self, bounds: &[Bounds<F>]) -> Result<(), Halt> {
        for (variable, bounds) in bounds.iter().enumerate() {
            put(&mut self.bounds, variable, *bounds)?;
            if at(&self.places, variable)? != Place::Basic {
                let (place, value) = self.place_outside(variable, *bounds)?;
                put(&mut self.places, variable, place)?;
                put(&mut self.outside, variable, value)?;
            }
        }
        self.refresh(false)?;
        if !self.is_known()? {
            self.refresh(true)?;
        }
        Ok(())
    }

    /// Where a variable outside the basis goes.
    fn place_outside(
        &self,
        variable: usize,
        bounds: Bounds<F>,
    ) -> Result<(Place, Number<F>), Halt> {
        match (bounds.low, bounds.high) {
            (None, None) => Ok((Place::Free, Number::zero())),
            (Some(low), None) => Ok((Place::Low, low)),
            (None, Some(high)) => Ok((Place::High, high)),
            (Some(low), Some(high)) => {
                if at(&self.costs, variable)?.sign()? < 0 {
                    Ok((Place::High, high))
                } else {
                    Ok((Place::Low, low))
                }
            }
        }
    }

    /// Whether all costs are held.
    pub(crate) fn has_costs(&self) -> bool {
        for cost in &self.costs {
            if !cost.is_held() {
                return false;
            }
        }
        true
    }

    /// Whether all costs are held, and all values that have a bound.
    pub(crate) fn is_known(&self) -> Result<bool, Halt> {
        for (variable, value) in self.slots.iter().zip(&self.values) {
            if !value.is_held() && at(&self.bounds, *variable)?.is_some() {
                return Ok(false);
            }
        }
        Ok(self.has_costs())
    }
}
