//! The primal method: from values that keep the bounds to costs with the right signs.
use crate::solver::Solver;
use crate::variable::Variable;
use whole_programs::{StepLength, Stop, at, difference, item, product};

/// A bound that ends a step.
#[derive(Clone, Copy, Debug)]
struct Barrier {
    /// The row whose variable comes to a bound. There is none where the variable that moves comes
    /// to its other bound.
    row: Option<usize>,
    /// Whether it is the bound from below.
    below: bool,
    /// By how far the variable is from the bound, and by how much it comes nearer.
    length: StepLength,
}

/// The magnitude of a gap: none where the bound is passed.
fn gap_of(gap: i128) -> u128 {
    if gap < 0 { 0 } else { gap.unsigned_abs() }
}

impl Solver {
    /// Goes to a basis at which the costs have the signs that the bounds ask for, from one whose
    /// values keep the bounds, and answers whether there is one: if not, the sum has no least
    /// value. Declines where a number is too long, or the steps are too many; then the solver is
    /// given up.
    pub(crate) fn go_to_best(&mut self) -> Result<bool, Stop> {
        for _turn in 0..self.most_turns() {
            let Some(variable) = self.find_gaining() else {
                return Ok(true);
            };
            if !self.advance(variable)? {
                return Ok(false);
            }
        }
        Err(Stop::Declined)
    }

    /// The variable with the greatest cost of those that lessen what is minimised where they move.
    fn find_gaining(&self) -> Option<usize> {
        let mut best = None;
        let mut most = 0;
        for (j, (variable, cost)) in self.variables.iter().zip(&self.costs).enumerate() {
            let size = cost.unsigned_abs();
            if size > most && variable.can_move(*cost < 0) {
                best = Some(j);
                most = size;
            }
        }
        best
    }

    /// Moves a variable that gains until it or another one comes to a bound: if none does, it is
    /// not moved.
    fn advance(&mut self, variable: usize) -> Result<bool, Stop> {
        let rises = at(&self.costs, variable)? < 0;
        let column = self.column(variable)?;
        let Some(barrier) = self.barrier(variable, rises, &column)? else {
            return Ok(false);
        };
        match barrier.row {
            None => self.flip(variable, &column)?,
            Some(row) => {
                self.write_row(row)?;
                self.exchange(row, barrier.below, variable, &column)?;
            }
        }
        Ok(true)
    }

    /// The first bound that the variable with this column comes to, or another one.
    fn barrier(
        &self,
        variable: usize,
        rises: bool,
        column: &[i128],
    ) -> Result<Option<Barrier>, Stop> {
        let mut best = own_barrier(item(&self.variables, variable)?)?;
        for (row, entry) in column.iter().enumerate() {
            if *entry != 0
                && let Some(next) = self.barrier_at(row, (*entry > 0) == rises, *entry)?
                && best.is_none_or(|best| next.length.is_shorter(best.length))
            {
                best = Some(next);
            }
        }
        Ok(best)
    }

    /// The bound of a row's variable, which it comes nearer to by the magnitude of the entry.
    fn barrier_at(&self, row: usize, below: bool, entry: i128) -> Result<Option<Barrier>, Stop> {
        let variable = item(&self.variables, at(&self.basis, row)?)?;
        let value = at(&self.values, row)?;
        let Some(bound) = variable.bound(below) else {
            return Ok(None);
        };
        let goal = product(bound, self.by)?;
        let gap = if below {
            difference(value, goal)?
        } else {
            difference(goal, value)?
        };
        Ok(Some(Barrier {
            row: Some(row),
            below,
            length: StepLength {
                gap: gap_of(gap),
                size: entry.unsigned_abs(),
            },
        }))
    }
}

/// The other bound of a variable that moves.
fn own_barrier(variable: &Variable) -> Result<Option<Barrier>, Stop> {
    let (Some(low), Some(high)) = (variable.low, variable.high) else {
        return Ok(None);
    };
    Ok(Some(Barrier {
        row: None,
        below: false,
        length: StepLength {
            gap: gap_of(difference(high, low)?),
            size: 1,
        },
    }))
}
