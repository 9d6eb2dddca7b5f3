//! The dual method: from costs with the right signs to values within the bounds.
use crate::exchange::Exchange;
use crate::leaving::Leaving;
use crate::running::End;
use crate::solver::Solver;
use exact_field::Field;
use short_basis::{Halt, Number, zeros};
use short_programs::Pricing;
use whole_programs::{Failing, Place, Spot, at, put};

impl<F: Field> Solver<F> {
    /// One step of the dual method, or how the run ends.
    pub(crate) fn turn(&mut self, pricing: Pricing) -> Result<Option<End>, Halt> {
        let Some(leaving) = self.find_leaving(pricing)? else {
            return Ok(Some(End::Optimal));
        };
        let line = self.inverse_row(leaving.slot)?;
        let row = self.write_row(&line.numbers)?;
        let by = line.by;
        let Some(entering) = self.find_entering(&row, by, leaving, pricing)? else {
            let failing = self.failing(leaving, &row, by)?;
            return Ok(Some(End::Failing(failing)));
        };
        let values = self.values_after(&entering.flipped)?;
        let column = self.column(entering.variable)?;
        self.exchange(Exchange {
            slot: leaving.slot,
            below: leaving.below,
            enter: entering.variable,
            column,
            row,
            by,
            values,
            flipped: entering.flipped,
        })?;
        Ok(None)
    }

    /// The slot whose variable no other one brings to its bound. Its row is kept.
    fn failing(&mut self, leaving: Leaving<F>, row: &[Spot], by: i128) -> Result<Failing, Halt> {
        self.failing = zeros(self.alloc, self.program.count())?;
        for spot in row {
            put(&mut self.failing, spot.at, Number::over(spot.value, by))?;
        }
        Ok(Failing {
            variable: at(&self.slots, leaving.slot)?,
            below: leaving.below,
        })
    }

    /// A variable outside the basis whose bounds are crossed, if there is one.
    pub(crate) fn find_crossed(&mut self) -> Result<Option<Failing>, Halt> {
        for (variable, bounds) in self.bounds.iter().enumerate() {
            let place = at(&self.places, variable)?;
            if place != Place::Basic && bounds.are_crossed() {
                self.failing = zeros(self.alloc, self.program.count())?;
                put(&mut self.failing, variable, Number::one().negative())?;
                let below = place == Place::High;
                return Ok(Some(Failing { variable, below }));
            }
        }
        Ok(None)
    }
}
