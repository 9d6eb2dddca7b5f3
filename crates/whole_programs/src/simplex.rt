//! What a guess asks of a solver.
use crate::limits::Limits;
use crate::program::{Program, Term};
use crate::stop::Stop;
use exact_field::Field;
use std::alloc::Global;

/// Where a variable stands.
#[derive(Clone, Copy, Debug, PartialEq, Eq)]
pub enum Place {
    Basic,
    /// At its bound from below.
    Low,
    /// At its bound from above.
    High,
    /// At 0, since it has no bound.
    Free,
}

/// A basic variable that is beyond a bound, where no other variable can move so that it comes
/// nearer: no values keep the bounds.
#[derive(Clone, Copy, Debug)]
pub struct Failing {
    pub variable: usize,
    /// Whether it is below its bound from below, and not above the one from above.
    pub below: bool,
}

/// A solver of programs with bounds, which keeps its basis from run to run. Nothing is promised of
/// what it finds. Where it declines it is given up.
pub trait Simplex<F: Field>: Sized {
    /// A program at the basis of the rows' variables, without costs.
    fn new(alloc: Global, program: Program) -> Result<Self, Stop>;

    fn program(&self) -> &Program;

    /// Makes a variable that is not basic the one that is minimised.
    fn minimise(&mut self, variable: usize) -> Result<(), Stop>;

    /// Makes a sum of multiples of variables what is minimised.
    fn minimise_sum(&mut self, terms: &[Term<F>]) -> Result<(), Stop>;

    /// Goes to a basis at which the costs have the signs that the bounds ask for, and answers
    /// whether there is one: if not, what is minimised has no least value, whichever the bounds
    /// are.
    fn start(&mut self, limits: &[Limits]) -> Result<bool, Stop>;

    /// Goes to a basis whose values keep the bounds, from one at which the costs have the right
    /// signs: or to one at which a variable shows that there is none.
    fn solve(&mut self, limits: &[Limits]) -> Result<Option<Failing>, Stop>;

    /// Goes to a basis at which the costs have the signs that the bounds ask for, from one whose
    /// values keep the bounds, and answers whether there is one: if not, what is minimised has no
    /// least value.
    fn improve(&mut self) -> Result<bool, Stop>;

    fn place(&self, variable: usize) -> Result<Place, Stop>;

    /// The cost of a variable in the tableau, which is above 0 where it could gain by being lower.
    fn cost(&self, variable: usize) -> Result<F, Stop>;

    /// What a variable outside the basis has in the row of a failing variable, as `solve` ended
    /// with it: the failing one, plus the sum of the others times these numbers, is 0.
    fn entry(&self, failing: Failing, variable: usize) -> Result<F, Stop>;

    /// The value of each variable that is asked for, and 0 for the others.
    fn values(&self, asked: &[bool]) -> Result<Vec<F>, Stop>;
}
