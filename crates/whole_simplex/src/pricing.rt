//! Which variable leaves the basis, and which one enters it.
use crate::solver::Solver;
use crate::variable::Variable;
use whole_programs::{
    Line, Program, Row, StepLength, Stop, at, difference, item, less_product, product,
};

/// A row whose basic variable is beyond one of its bounds.
#[derive(Clone, Copy, Debug)]
pub(crate) struct Leaving {
    pub(crate) row: usize,
    /// Whether it is below the one from below.
    pub(crate) below: bool,
    /// How far, over `by` times `unit`.
    pub(crate) far: i128,
}

/// A variable that may enter the basis.
#[derive(Clone, Copy, Debug)]
struct Candidate {
    variable: usize,
    /// By the magnitudes of its cost and of its entry in the row.
    length: StepLength,
}

/// A variable that enters the basis, and those that change to their other bounds before.
#[derive(Debug, Drop)]
pub(crate) struct Entering {
    pub(crate) variable: usize,
    pub(crate) flipped: Vec<usize>,
}

/// The candidate with the shortest step, and its place in the list.
fn best_of(list: &[Candidate]) -> Option<(usize, Candidate)> {
    let mut best: Option<(usize, Candidate)> = None;
    for (place, next) in list.iter().enumerate() {
        if best.is_none_or(|(_, best)| next.length.is_shorter(best.length)) {
            best = Some((place, *next));
        }
    }
    best
}

/// Whether a variable outside the basis can move so that the row's variable comes nearer to its
/// bound, by the entry of the row.
fn can_enter(variable: &Variable, entry: i128, below: bool) -> bool {
    entry != 0 && variable.can_move((entry < 0) == below)
}

/// How far the row's variable still is beyond its bound once a variable went to its other bound:
/// none where it has none, or goes too far.
fn after_flip(variable: &Variable, size: u128, far: i128) -> Result<Option<i128>, Stop> {
    let (Some(low), Some(high)) = (variable.low, variable.high) else {
        return Ok(None);
    };
    let way = difference(high, low)?;
    let Some(step) = size.cast_signed().checked_mul(way) else {
        return Ok(None);
    };
    let rest = difference(far, step)?;
    Ok(if rest > 0 { Some(rest) } else { None })
}

/// Takes a product from the number of a variable, unless it is basic.
fn take_product(
    line: &mut Line,
    variables: &[Variable],
    variable: usize,
    x: i128,
    y: i128,
) -> Result<(), Stop> {
    if item(variables, variable)?.is_basic() {
        return Ok(());
    }
    line.take_product(variable, x, y)
}

/// Adds a multiple of a row of the program, outside the basis.
fn add_row(line: &mut Line, variables: &[Variable], row: &Row, factor: i128) -> Result<(), Stop> {
    take_product(line, variables, row.variable, factor, -1)?;
    for spot in &row.spots {
        take_product(line, variables, spot.at, factor, spot.value)?;
    }
    Ok(())
}

/// Writes the sum of these multiples of the program's rows, outside the basis.
pub(crate) fn write_sum(
    line: &mut Line,
    program: &Program,
    variables: &[Variable],
    factors: &[i128],
) -> Result<(), Stop> {
    line.clear()?;
    for (row, factor) in program.rows().iter().zip(factors) {
        if *factor != 0 {
            add_row(line, variables, row, *factor)?;
        }
    }
    Ok(())
}

impl Solver {
    /// The row whose variable is farthest beyond a bound, if there is one, and of equal ones the
    /// first.
    pub(crate) fn find_leaving(&self) -> Result<Option<Leaving>, Stop> {
        let mut best: Option<Leaving> = None;
        for (row, variable) in self.basis.iter().enumerate() {
            if let Some(next) = self.violation(row, *variable)?
                && best.is_none_or(|best| next.far > best.far)
            {
                best = Some(next);
            }
        }
        Ok(best)
    }

    /// By how much the variable of a row is beyond a bound.
    fn violation(&self, row: usize, variable: usize) -> Result<Option<Leaving>, Stop> {
        let variable = item(&self.variables, variable)?;
        let value = at(&self.values, row)?;
        if let Some(low) = variable.low {
            let far = difference(product(low, self.by)?, value)?;
            if far > 0 {
                let below = true;
                return Ok(Some(Leaving { row, below, far }));
            }
        }
        if let Some(high) = variable.high {
            let far = difference(value, product(high, self.by)?)?;
            if far > 0 {
                let below = false;
                return Ok(Some(Leaving { row, below, far }));
            }
        }
        Ok(None)
    }

    /// Calculates a row of the tableau, outside the basis.
    pub(crate) fn write_row(&mut self, row: usize) -> Result<(), Stop> {
        let factors = item(&self.inverse, row)?;
        write_sum(&mut self.row, &self.program, &self.variables, factors)
    }

    /// The variables that may enter the basis.
    fn candidates(&self, below: bool) -> Result<Vec<Candidate>, Stop> {
        let mut list = Vec::new(self.alloc);
        for variable in &self.row.places {
            let entry = at(&self.row.numbers, *variable)?;
            if can_enter(item(&self.variables, *variable)?, entry, below) {
                let gap = at(&self.costs, *variable)?.unsigned_abs();
                let size = entry.unsigned_abs();
                list.push(Candidate {
                    variable: *variable,
                    length: StepLength { gap, size },
                })?;
            }
        }
        Ok(list)
    }

    /// The variable with the shortest step that brings the row's variable to its bound; those
    /// before it change to their other bounds. There is none where no variable moves it the right
    /// way.
    pub(crate) fn find_entering(&self, leaving: Leaving) -> Result<Option<Entering>, Stop> {
        let mut list = self.candidates(leaving.below)?;
        let mut far = leaving.far;
        let mut flipped = Vec::new(self.alloc);
        for _turn in 0..list.len() {
            let Some((place, best)) = best_of(&list) else {
                return Ok(None);
            };
            let variable = best.variable;
            if list.len() == 1 {
                return Ok(Some(Entering { variable, flipped }));
            }
            match after_flip(item(&self.variables, variable)?, best.length.size, far)? {
                None => return Ok(Some(Entering { variable, flipped })),
                Some(rest) => {
                    far = rest;
                    flipped.push(variable)?;
                    take_out(&mut list, place)?;
                }
            }
        }
        Ok(None)
    }

    /// A column of the tableau, over `by`.
    pub(crate) fn column(&self, variable: usize) -> Result<Vec<i128>, Stop> {
        let mut column = Vec::new(self.alloc);
        for line in &self.inverse {
            column.push(self.entry(line, variable)?)?;
        }
        Ok(column)
    }

    /// The entry of the tableau at a variable, in the row of this row of the inverse.
    fn entry(&self, line: &[i128], variable: usize) -> Result<i128, Stop> {
        if let Some(k) = self.program.own_row(variable)? {
            return at(line, k);
        }
        let mut sum = 0;
        for spot in self.program.column(variable)? {
            sum = less_product(sum, at(line, spot.at)?, spot.value);
        }
        Ok(sum)
    }
}

/// Takes a candidate out of a list, and puts the last one in its place.
fn take_out(list: &mut Vec<Candidate>, k: usize) -> Result<(), Stop> {
    if k < list.len() {
        let _candidate = list.swap_remove(k);
        Ok(())
    } else {
        Err(Stop::Declined)
    }
}
