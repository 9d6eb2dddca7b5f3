//! What is minimised, where it changes from question to question.
use crate::pricing::write_sum;
use crate::solver::Solver;
use exact_field::Field;
use whole_programs::{Ratio, Stop, Term, at, difference, keep, plus_product, product, put, sum};

/// The least common denominator of ratios.
fn unit_of(ratios: &[Ratio]) -> Result<i128, Stop> {
    let mut unit = 1;
    for ratio in ratios {
        unit = ratio.unit_with(unit)?;
    }
    Ok(unit)
}

/// Adds a multiple of a row of the inverse.
fn add_multiple(total: &mut [i128], factor: i128, line: &[i128]) {
    for (sum, entry) in total.iter_mut().zip(line) {
        if *entry != 0 {
            *sum = plus_product(*sum, factor, *entry);
        }
    }
}

impl Solver {
    /// Makes a sum of multiples of variables what is minimised. The cost is that of a row of the
    /// tableau, and of a row of the inverse for each variable of the sum that is basic.
    pub(crate) fn set_sum<F: Field>(&mut self, terms: &[Term<F>]) -> Result<(), Stop> {
        let factors = self.factors(terms)?;
        let multipliers = self.multipliers(&factors)?;
        write_sum(&mut self.row, &self.program, &self.variables, &multipliers)?;
        self.write_costs(&factors)
    }

    /// The multiple of each variable, over `cost_unit`, which is set.
    fn factors<F: Field>(&mut self, terms: &[Term<F>]) -> Result<Vec<i128>, Stop> {
        let mut ratios = Vec::new(self.alloc);
        for term in terms {
            ratios.push(Ratio::over(term.value, self.program.scale(term.at)?)?)?;
        }
        self.cost_unit = unit_of(&ratios)?;
        let mut factors = vec![in self.alloc; 0; self.variables.len()]?;
        for (term, ratio) in terms.iter().zip(&ratios) {
            let factor = ratio.at_unit(self.cost_unit)?;
            let old = at(&factors, term.at)?;
            put(&mut factors, term.at, sum(old, factor)?)?;
        }
        Ok(factors)
    }

    /// By how much each row of the program is in the sum, by its variables that are basic.
    fn multipliers(&self, factors: &[i128]) -> Result<Vec<i128>, Stop> {
        let mut multipliers = vec![in self.alloc; 0; self.program.rows().len()]?;
        for (variable, line) in self.basis.iter().zip(&self.inverse) {
            let factor = at(factors, *variable)?;
            if factor != 0 {
                add_multiple(&mut multipliers, factor, line);
            }
        }
        Ok(multipliers)
    }

    /// Writes the costs: the multiple of each variable outside the basis, less what the row has
    /// there.
    fn write_costs(&mut self, factors: &[i128]) -> Result<(), Stop> {
        for (j, variable) in self.variables.iter().enumerate() {
            let cost = if variable.is_basic() {
                0
            } else {
                let own = product(at(factors, j)?, self.by)?;
                keep(difference(own, at(&self.row.numbers, j)?)?)?
            };
            put(&mut self.costs, j, cost)?;
        }
        Ok(())
    }
}
