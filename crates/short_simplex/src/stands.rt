//! Bases from which a run can go on.
use crate::solver::Solver;
use exact_field::Field;
use short_basis::{Halt, Number};
use whole_programs::{Place, Stop};

/// So many stands are kept: the first of the run, and the last ones.
const MOST_STANDS: usize = 9;

/// A basis from which a run can go on.
#[derive(Debug, Drop)]
pub(crate) struct Stand<F> {
    slots: Vec<usize>,
    places: Vec<Place>,
    outside: Vec<Number<F>>,
    /// How many steps were made before it.
    steps: usize,
}

impl<F: Field> Solver<F> {
    /// Keeps where the run stands, unless it is kept.
    pub(crate) fn note_stand(&mut self) -> Result<(), Halt> {
        if let Some(last) = self.stands.last()
            && last.steps == self.steps
        {
            return Ok(());
        }
        if self.stands.len() >= MOST_STANDS {
            let _second = self.stands.remove(1);
        }
        self.stands.push(Stand {
            slots: self.slots.clone()?,
            places: self.places.clone()?,
            outside: self.outside.clone()?,
            steps: self.steps,
        })?;
        Ok(())
    }

    /// Goes back to the last stand, and forgets it unless it is the first.
    pub(crate) fn go_back(&mut self) -> Result<(), Halt> {
        let Some(stand) = self.stands.pop() else {
            return Err(Halt::from(Stop::Declined));
        };
        self.slots = stand.slots.clone()?;
        self.places = stand.places.clone()?;
        self.outside = stand.outside.clone()?;
        if self.stands.is_empty() {
            self.stands.push(stand)?;
        }
        self.refresh(true)
    }
}
