//! Where the variables stand at a question.
use std::alloc::Global;
use whole_programs::{Place, Program, Stop};

/// A variable at a question, by whole numbers over one unit.
#[derive(Clone, Copy, Debug)]
pub(crate) struct Variable {
    pub(crate) place: Place,
    pub(crate) low: Option<i128>,
    pub(crate) high: Option<i128>,
    /// The value, if it is not basic.
    pub(crate) at: i128,
}

impl Variable {
    /// Whether it is in the basis.
    pub(crate) fn is_basic(&self) -> bool {
        self.place == Place::Basic
    }

    /// The bound from below, or the one from above.
    pub(crate) fn bound(&self, below: bool) -> Option<i128> {
        if below { self.low } else { self.high }
    }

    /// Whether it is outside the basis and can move upwards, or downwards.
    pub(crate) fn can_move(&self, upwards: bool) -> bool {
        match self.place {
            Place::Basic => false,
            Place::Free => true,
            Place::Low => upwards && self.low != self.high,
            Place::High => !upwards && self.low != self.high,
        }
    }
}

/// Variables that have no bound yet, where those of the rows are basic.
pub(crate) fn open_variables(alloc: Global, program: &Program) -> Result<Vec<Variable>, Stop> {
    let mut variables = Vec::new(alloc);
    for own_row in program.own_rows() {
        let place = if own_row.is_some() {
            Place::Basic
        } else {
            Place::Free
        };
        variables.push(Variable {
            place,
            low: None,
            high: None,
            at: 0,
        })?;
    }
    Ok(variables)
}
