//! Variables whose bounds contradict each other.
use crate::solver::Solver;
use whole_programs::{Failing, Stop, at, item};

impl Solver {
    /// A variable whose bound from below is above the one from above, if there is one, and it is
    /// not in the basis, or can leave it: then it stands at its bound from below.
    pub(crate) fn take_out_crossed(&mut self) -> Result<Option<Failing>, Stop> {
        let Some(variable) = self.find_crossed() else {
            return Ok(None);
        };
        if item(&self.variables, variable)?.is_basic() && !self.take_out(variable)? {
            return Ok(None);
        }
        let below = false;
        Ok(Some(Failing { variable, below }))
    }

    fn find_crossed(&self) -> Option<usize> {
        for (j, variable) in self.variables.iter().enumerate() {
            if let (Some(low), Some(high)) = (variable.low, variable.high)
                && low > high
            {
                return Some(j);
            }
        }
        None
    }

    /// Takes a variable out of the basis, to its bound from below, and answers whether another one
    /// can take its place.
    fn take_out(&mut self, variable: usize) -> Result<bool, Stop> {
        let Some(row) = self.basis.iter().position(|basic| *basic == variable) else {
            return Ok(false);
        };
        self.write_row(row)?;
        let Some(enter) = self.find_entry()? else {
            return Ok(false);
        };
        let column = self.column(enter)?;
        self.exchange(row, true, enter, &column)?;
        Ok(true)
    }

    /// A variable outside the basis that has an entry in the row that was written last.
    fn find_entry(&self) -> Result<Option<usize>, Stop> {
        for variable in &self.row.places {
            if at(&self.row.numbers, *variable)? != 0 {
                return Ok(Some(*variable));
            }
        }
        Ok(None)
    }
}
