//! A step from one basis to the next.
use crate::solver::Solver;
use exact_field::Field;
use short_basis::{Halt, Number, Part, zeros};
use short_programs::{Bounds, take_column};
use whole_programs::{Place, Spot, at, put};

/// What a step is made of: the entering variable with its column, and the slot of the leaving one
/// with its row over a denominator.
#[derive(Drop)]
pub(crate) struct Exchange<F> {
    pub(crate) slot: usize,
    /// Whether the leaving variable goes to its bound from below.
    pub(crate) below: bool,
    pub(crate) enter: usize,
    pub(crate) column: Vec<Number<F>>,
    pub(crate) row: Vec<Spot>,
    pub(crate) by: i128,
    /// The values of the slots, where the flipped variables are at their other bounds.
    pub(crate) values: Vec<Number<F>>,
    pub(crate) flipped: Vec<usize>,
}

/// The other place of a variable at a bound, and the bound there.
fn other_place<F: Field>(place: Place, bounds: Bounds<F>) -> Result<(Place, Number<F>), Halt> {
    let (place, bound) = match place {
        Place::Low => (Place::High, bounds.high),
        Place::Basic | Place::High | Place::Free => (Place::Low, bounds.low),
    };
    Ok((place, bound.ok_or(Halt::Long)?))
}

/// Moves values by a step along a column.
pub(crate) fn move_values<F: Field>(
    values: &mut [Number<F>],
    column: &[Number<F>],
    step: Number<F>,
) {
    if step.is_zero() {
        return;
    }
    for (value, entry) in values.iter_mut().zip(column) {
        if !entry.is_zero() {
            *value = value.less_product(*entry, step);
        }
    }
}

impl<F: Field> Solver<F> {
    /// The values of the slots once some variables are at their other bounds.
    pub(crate) fn values_after(&self, flipped: &[usize]) -> Result<Vec<Number<F>>, Halt> {
        let mut values = self.values.clone()?;
        if flipped.is_empty() {
            return Ok(values);
        }
        let mut right = zeros(self.alloc, self.slots.len())?;
        for variable in flipped {
            let (_place, bound) = self.other_side(*variable)?;
            let step = bound.less(at(&self.outside, *variable)?);
            take_column(&mut right, &self.program, *variable, step)?;
        }
        let change = self.basis.solve(right)?;
        for (value, more) in values.iter_mut().zip(&change) {
            *value = value.plus(*more);
        }
        Ok(values)
    }

    fn other_side(&self, variable: usize) -> Result<(Place, Number<F>), Halt> {
        other_place(at(&self.places, variable)?, at(&self.bounds, variable)?)
    }

    /// Puts a variable outside the basis to its other bound. The values are not changed.
    pub(crate) fn flip(&mut self, variable: usize) -> Result<(), Halt> {
        let (place, bound) = self.other_side(variable)?;
        put(&mut self.places, variable, place)?;
        Ok(put(&mut self.outside, variable, bound)?)
    }

    /// The costs of the row's variables once the cost of the entering one is 0.
    fn costs_after(&self, exchange: &Exchange<F>, gain: Number<F>) -> Result<Vec<Part<F>>, Halt> {
        let mut parts = Vec::new(self.alloc);
        if gain.is_zero() {
            return Ok(parts);
        }
        for spot in &exchange.row {
            let entry = Number::over(spot.value, exchange.by);
            let value = at(&self.costs, spot.at)?.less_product(entry, gain);
            parts.push(Part { at: spot.at, value })?;
        }
        Ok(parts)
    }

    /// The entering variable takes the slot, and the one that leaves goes to its bound. All numbers
    /// are made before any is kept.
    pub(crate) fn exchange(&mut self, exchange: Exchange<F>) -> Result<(), Halt> {
        let slot = exchange.slot;
        let pivot = at(&exchange.column, slot)?;
        if pivot.sign()? == 0 {
            return Err(Halt::Singular);
        }
        let out = at(&self.slots, slot)?;
        let bound = at(&self.bounds, out)?.bound(exchange.below);
        let goal = bound.ok_or(Halt::Long)?;
        let gain = at(&self.costs, exchange.enter)?.quotient(pivot);
        let costs = self.costs_after(&exchange, gain)?;
        let step = at(&exchange.values, slot)?.less(goal).quotient(pivot);
        let entered = at(&self.outside, exchange.enter)?.plus(step);
        self.keep_values(&exchange, step, entered)?;
        for variable in &exchange.flipped {
            self.flip(*variable)?;
        }
        for part in &costs {
            put(&mut self.costs, part.at, part.value)?;
        }
        put(&mut self.costs, out, gain.negative())?;
        put(&mut self.costs, exchange.enter, Number::zero())?;
        let place = if exchange.below {
            Place::Low
        } else {
            Place::High
        };
        put(&mut self.places, out, place)?;
        put(&mut self.outside, out, goal)?;
        self.replace(&exchange)
    }

    /// Keeps the values after a step.
    fn keep_values(
        &mut self,
        exchange: &Exchange<F>,
        step: Number<F>,
        entered: Number<F>,
    ) -> Result<(), Halt> {
        let mut values = exchange.values.clone()?;
        move_values(&mut values, &exchange.column, step);
        put(&mut values, exchange.slot, entered)?;
        self.values = values;
        Ok(())
    }

    /// Takes the entering variable into the basis, which is factored anew where the step cannot be
    /// kept beside or a number is not held that may be needed.
    fn replace(&mut self, exchange: &Exchange<F>) -> Result<(), Halt> {
        put(&mut self.places, exchange.enter, Place::Basic)?;
        put(&mut self.outside, exchange.enter, Number::zero())?;
        put(&mut self.slots, exchange.slot, exchange.enter)?;
        self.steps = self.steps.saturating_add(1);
        if are_held(&exchange.column) {
            self.basis.update(exchange.slot, &exchange.column)?;
            if self.is_known()? {
                return Ok(());
            }
        }
        self.refresh(true)
    }
}

/// Whether all numbers are held.
fn are_held<F: Field>(list: &[Number<F>]) -> bool {
    for x in list {
        if !x.is_held() {
            return false;
        }
    }
    true
}
