//! The primal method: from values within the bounds to costs with the right signs.
use crate::exchange::{Exchange, move_values};
use crate::running::End;
use crate::solver::Solver;
use exact_field::Field;
use short_basis::{Halt, Number};
use short_programs::Pricing;
use std::cmp::Ordering;
use whole_programs::at;

/// The first bound that a moving variable, or one in the basis, comes to.
#[derive(Clone, Copy)]
struct Barrier<F> {
    /// The slot of the variable that comes to it, and its entry: none where the moving one does.
    slot: Option<(usize, Number<F>)>,
    /// Whether it is a bound from below.
    below: bool,
    way: Number<F>,
}

impl<F: Field> Solver<F> {
    /// One step of the primal method, or how the run ends.
    pub(crate) fn advance(&mut self, pricing: Pricing) -> Result<Option<End>, Halt> {
        let Some(enter) = self.find_gaining(pricing)? else {
            return Ok(Some(End::Optimal));
        };
        let rises = at(&self.costs, enter)?.sign()? < 0;
        let column = self.column(enter)?;
        let Some(barrier) = self.barrier(enter, rises, &column, pricing)? else {
            return Ok(Some(End::Ray));
        };
        let Barrier { slot, below, way } = barrier;
        match slot {
            None => self.move_to_other(enter, &column, rises, way)?,
            Some((slot, _entry)) => self.enter(slot, below, enter, column)?,
        }
        Ok(None)
    }

    /// Moves a variable with this column to its other bound.
    fn move_to_other(
        &mut self,
        variable: usize,
        column: &[Number<F>],
        rises: bool,
        way: Number<F>,
    ) -> Result<(), Halt> {
        let step = if rises { way } else { way.negative() };
        move_values(&mut self.values, column, step);
        self.flip(variable)
    }

    /// Takes a variable with this column into the basis, in place of one that goes to its bound from
    /// below or from above.
    fn enter(
        &mut self,
        slot: usize,
        below: bool,
        enter: usize,
        column: Vec<Number<F>>,
    ) -> Result<(), Halt> {
        let line = self.inverse_row(slot)?;
        let row = self.write_row(&line.numbers)?;
        let by = line.by;
        let values = self.values_after(&[])?;
        let flipped = Vec::new(self.alloc);
        self.exchange(Exchange {
            slot,
            below,
            enter,
            column,
            row,
            by,
            values,
            flipped,
        })
    }

    /// A variable that lessens what is minimised where it moves, if there is one.
    fn find_gaining(&self, pricing: Pricing) -> Result<Option<usize>, Halt> {
        let mut best = None;
        for (variable, cost) in self.costs.iter().enumerate() {
            let sign = cost.sign()?;
            if sign == 0 || !self.can_move(variable, sign < 0)? {
                continue;
            }
            let is_better = match best {
                None => true,
                Some(old) => self.gains_before(pricing, variable, old)?,
            };
            if is_better {
                best = Some(variable);
            }
        }
        Ok(best)
    }

    /// Whether a variable is to enter before the best one.
    fn gains_before(&self, pricing: Pricing, variable: usize, best: usize) -> Result<bool, Halt> {
        let cost = at(&self.costs, variable)?;
        let other = at(&self.costs, best)?;
        Ok(match pricing {
            Pricing::Farthest => {
                cost.magnitude().compare(other.magnitude())? == Ordering::Greater
            }
            Pricing::First => false,
            Pricing::Shortest => cost.bits() < other.bits(),
            Pricing::Sparsest => self.entries(variable)? < self.entries(best)?,
        })
    }

    /// The first bound that the variable with this column comes to, or another one.
    fn barrier(
        &self,
        enter: usize,
        rises: bool,
        column: &[Number<F>],
        pricing: Pricing,
    ) -> Result<Option<Barrier<F>>, Halt> {
        let width = at(&self.bounds, enter)?.width();
        let mut best = width.map(|way| Barrier {
            slot: None,
            below: false,
            way,
        });
        for (slot, entry) in column.iter().enumerate() {
            if entry.is_zero() {
                continue;
            }
            let below = (entry.sign()? > 0) == rises;
            if let Some(next) = self.barrier_at(slot, below, *entry)?
                && self.stops_before(next, best, pricing)?
            {
                best = Some(next);
            }
        }
        Ok(best)
    }

    /// The bound of a slot's variable.
    fn barrier_at(
        &self,
        slot: usize,
        below: bool,
        entry: Number<F>,
    ) -> Result<Option<Barrier<F>>, Halt> {
        let Some(bound) = at(&self.bounds, at(&self.slots, slot)?)?.bound(below) else {
            return Ok(None);
        };
        let way = at(&self.values, slot)?.less(bound).quotient(entry);
        Ok(Some(Barrier {
            slot: Some((slot, entry)),
            below,
            way: way.magnitude(),
        }))
    }

    /// Whether a bound is come to before the best one.
    fn stops_before(
        &self,
        next: Barrier<F>,
        best: Option<Barrier<F>>,
        pricing: Pricing,
    ) -> Result<bool, Halt> {
        let Some(best) = best else {
            return Ok(true);
        };
        match next.way.compare(best.way)? {
            Ordering::Less => Ok(true),
            Ordering::Equal => self.is_better_pivot(next, best, pricing),
            Ordering::Greater => Ok(false),
        }
    }

    /// Of two bounds that are come to at once which one is taken.
    fn is_better_pivot(
        &self,
        next: Barrier<F>,
        best: Barrier<F>,
        pricing: Pricing,
    ) -> Result<bool, Halt> {
        let (Some((slot, entry)), Some((other, last))) = (next.slot, best.slot) else {
            return Ok(false);
        };
        if pricing == Pricing::First {
            return Ok(at(&self.slots, slot)? < at(&self.slots, other)?);
        }
        Ok(entry.magnitude().compare(last.magnitude())? == Ordering::Greater)
    }
}
