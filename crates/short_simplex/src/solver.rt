//! The state between two steps: a basis, and the values of the variables.
use crate::stands::Stand;
use exact_field::Field;
use short_basis::{Basis, Halt, Number, zeros};
use short_programs::{Bounds, columns_of};
use std::alloc::Global;
use whole_programs::{Line, Place, Program};

/// A program at a basis.
#[derive(Debug, Drop)]
pub struct Solver<F> {
    pub(crate) alloc: Global,
    pub(crate) program: Program,
    pub(crate) bounds: Vec<Bounds<F>>,
    pub(crate) places: Vec<Place>,
    /// The value of each variable outside the basis.
    pub(crate) outside: Vec<Number<F>>,
    /// What is minimised: the multiple of each variable.
    pub(crate) factors: Vec<Number<F>>,
    /// The cost of each variable in the tableau.
    pub(crate) costs: Vec<Number<F>>,
    /// The basic variable of each slot, and its value.
    pub(crate) slots: Vec<usize>,
    pub(crate) values: Vec<Number<F>>,
    /// What the variables outside the basis leave of each row.
    pub(crate) right: Vec<Number<F>>,
    pub(crate) basis: Basis<F>,
    /// The row of the tableau that a step is made in.
    pub(crate) row: Line,
    /// The row of the last failing variable, outside the basis.
    pub(crate) failing: Vec<Number<F>>,
    pub(crate) stands: Vec<Stand<F>>,
    /// How many steps were made.
    pub(crate) steps: usize,
}

/// The places of the variables where those of the rows are basic, and those variables.
fn first_places(alloc: Global, program: &Program) -> Result<(Vec<Place>, Vec<usize>), Halt> {
    let mut places = Vec::new(alloc);
    for own_row in program.own_rows() {
        places.push(if own_row.is_some() {
            Place::Basic
        } else {
            Place::Free
        })?;
    }
    let mut slots = Vec::new(alloc);
    for row in program.rows() {
        slots.push(row.variable)?;
    }
    Ok((places, slots))
}

impl<F: Field> Solver<F> {
    /// A program at the basis of the rows' variables, without costs.
    pub(crate) fn at_rows(alloc: Global, program: Program) -> Result<Solver<F>, Halt> {
        let rows = program.rows().len();
        let count = program.count();
        let (places, slots) = first_places(alloc, &program)?;
        let basis = Basis::of(alloc, &columns_of(alloc, &program, &slots)?)?;
        Ok(Solver {
            alloc,
            program,
            bounds: vec![in alloc; Bounds::open(); count]?,
            places,
            outside: zeros(alloc, count)?,
            factors: zeros(alloc, count)?,
            costs: zeros(alloc, count)?,
            slots,
            values: zeros(alloc, rows)?,
            right: zeros(alloc, rows)?,
            basis,
            row: Line::new(alloc, count)?,
            failing: zeros(alloc, count)?,
            stands: Vec::new(alloc),
            steps: 0,
        })
    }

    /// Goes back to the basis of the rows' variables, with the same costs.
    pub(crate) fn reset(&mut self) -> Result<(), Halt> {
        let (places, slots) = first_places(self.alloc, &self.program)?;
        self.places = places;
        self.slots = slots;
        self.outside = zeros(self.alloc, self.program.count())?;
        self.refresh(true)
    }
}
