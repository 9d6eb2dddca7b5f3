//! What guesses ask of the solver.
use crate::solver::Solver;
use exact_field::Field;
use std::alloc::Global;
use whole_programs::{Failing, Limits, Place, Program, Simplex, Stop, Term, put};

impl<F: Field> Simplex<F> for Solver {
    fn new(alloc: Global, program: Program) -> Result<Solver, Stop> {
        Solver::at_rows(alloc, program)
    }

    fn program(&self) -> &Program {
        &self.program
    }

    fn minimise(&mut self, variable: usize) -> Result<(), Stop> {
        put(&mut self.costs, variable, 1)
    }

    fn minimise_sum(&mut self, terms: &[Term<F>]) -> Result<(), Stop> {
        self.set_sum(terms)
    }

    fn start(&mut self, limits: &[Limits]) -> Result<bool, Stop> {
        self.go_to_start(limits)
    }

    fn solve(&mut self, limits: &[Limits]) -> Result<Option<Failing>, Stop> {
        self.solve_at(limits)
    }

    fn improve(&mut self) -> Result<bool, Stop> {
        self.go_to_best()
    }

    fn place(&self, variable: usize) -> Result<Place, Stop> {
        self.place_of(variable)
    }

    fn cost(&self, variable: usize) -> Result<F, Stop> {
        self.cost_of(variable)
    }

    fn entry(&self, failing: Failing, variable: usize) -> Result<F, Stop> {
        self.entry_of(failing.variable, variable)
    }

    fn values(&self, asked: &[bool]) -> Result<Vec<F>, Stop> {
        self.values_of(asked)
    }
}
