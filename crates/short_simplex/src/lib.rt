//! Simplex methods with bounds, over reduced fractions, for programs whose determinants are long
//! while their answers are short.
//!
//! What is minimised is one of the variables, or a sum of multiples of them, or nothing. Where only
//! the bounds change from question to question, the dual method goes on from the last basis
//! (`solve`); where only the sum changes, the primal one does (`improve`). A number that is not held
//! stops a run only where its sign is needed: then the basis is factored anew, another variable is
//! chosen, or the run goes back to an earlier basis. Nothing is promised of what is found: it is for
//! guesses that are tested.
#![tactic(auto)]

mod columns;
mod costs;
mod entering;
mod exchange;
mod improving;
mod leaving;
mod refreshing;
mod running;
mod simplex;
mod solver;
mod stands;
mod turning;

pub use solver::Solver;
