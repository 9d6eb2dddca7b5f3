//! What guesses ask of the solver.
use crate::running::End;
use crate::solver::Solver;
use exact_field::Field;
use short_basis::{Number, Part};
use short_programs::bounds_of;
use std::alloc::Global;
use whole_programs::{Failing, Limits, Place, Program, Simplex, Stop, Term, at, put};

/// A number in another field.
fn number_of<F: Field, G: Field>(x: F) -> Number<G> {
    Number::over(x.num(), x.den())
}

/// A number that is held, in another field.
fn held_of<F: Field, G: Field>(x: Number<G>) -> Result<F, Stop> {
    let x = x.held()?;
    F::of(x.num(), x.den()).ok_or(Stop::Declined)
}

impl<F: Field, G: Field> Simplex<F> for Solver<G> {
    fn new(alloc: Global, program: Program) -> Result<Solver<G>, Stop> {
        Ok(Solver::at_rows(alloc, program)?)
    }

    fn program(&self) -> &Program {
        &self.program
    }

    fn minimise(&mut self, variable: usize) -> Result<(), Stop> {
        Ok(self.add_factor(variable)?)
    }

    fn minimise_sum(&mut self, terms: &[Term<F>]) -> Result<(), Stop> {
        let mut sum = Vec::new(self.alloc);
        for term in terms {
            sum.push(Part {
                at: term.at,
                value: number_of(term.value),
            })?;
        }
        Ok(self.set_sum(&sum)?)
    }

    fn start(&mut self, limits: &[Limits]) -> Result<bool, Stop> {
        match self.start_at(&bounds_of(self.alloc, limits)?)? {
            End::Optimal => Ok(true),
            End::Failing(_) => Err(Stop::Declined),
            End::Ray => Ok(false),
        }
    }

    fn solve(&mut self, limits: &[Limits]) -> Result<Option<Failing>, Stop> {
        match self.solve_at(&bounds_of(self.alloc, limits)?)? {
            End::Optimal => Ok(None),
            End::Failing(failing) => Ok(Some(failing)),
            End::Ray => Err(Stop::Declined),
        }
    }

    fn improve(&mut self) -> Result<bool, Stop> {
        match self.improve_at()? {
            End::Optimal => Ok(true),
            End::Failing(_) => Err(Stop::Declined),
            End::Ray => Ok(false),
        }
    }

    fn place(&self, variable: usize) -> Result<Place, Stop> {
        at(&self.places, variable)
    }

    fn cost(&self, variable: usize) -> Result<F, Stop> {
        let scale = Number::whole(self.program.scale(variable)?);
        held_of(at(&self.costs, variable)?.times(scale))
    }

    fn entry(&self, failing: Failing, variable: usize) -> Result<F, Stop> {
        let scale = Number::whole(self.program.scale(variable)?);
        let by = Number::whole(self.program.scale(failing.variable)?);
        let entry = at(&self.failing, variable)?;
        held_of(entry.times(scale).quotient(by))
    }

    fn values(&self, asked: &[bool]) -> Result<Vec<F>, Stop> {
        let mut all = vec![in self.alloc; F::zero(); asked.len()]?;
        for (variable, value) in self.outside.iter().enumerate() {
            self.put_value(&mut all, asked, variable, *value)?;
        }
        for (variable, value) in self.slots.iter().zip(&self.values) {
            self.put_value(&mut all, asked, *variable, *value)?;
        }
        Ok(all)
    }
}

impl<G: Field> Solver<G> {
    /// Puts the value of a variable in its place, where it is asked for.
    fn put_value<F: Field>(
        &self,
        all: &mut [F],
        asked: &[bool],
        variable: usize,
        value: Number<G>,
    ) -> Result<(), Stop> {
        if !at(asked, variable)? {
            return Ok(());
        }
        let scale = Number::whole(self.program.scale(variable)?);
        put(all, variable, held_of(value.quotient(scale))?)
    }
}
