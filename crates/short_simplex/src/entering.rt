//! Which variable enters the basis.
use crate::leaving::Leaving;
use crate::solver::Solver;
use exact_field::Field;
use short_basis::{Halt, Number};
use short_programs::{Candidate, Pricing};
use whole_programs::{Spot, Stop, at};

/// The variable that enters, and those that change to their other bounds before.
#[derive(Drop)]
pub(crate) struct Entering {
    pub(crate) variable: usize,
    pub(crate) flipped: Vec<usize>,
}

/// The best candidate, and its place in the list.
fn best_of<F: Field>(
    list: &[Candidate],
    pricing: Pricing,
) -> Result<Option<(usize, Candidate)>, Halt> {
    let mut best: Option<(usize, Candidate)> = None;
    for (place, next) in list.iter().enumerate() {
        let is_better = match best {
            None => true,
            Some((_, old)) => next.is_before::<F>(old, pricing == Pricing::First)?,
        };
        if is_better {
            best = Some((place, *next));
        }
    }
    Ok(best)
}

/// Takes a candidate out of a list, and puts the last one in its place.
fn take_out(list: &mut Vec<Candidate>, k: usize) -> Result<(), Halt> {
    if k < list.len() {
        let _candidate = list.swap_remove(k);
        Ok(())
    } else {
        Err(Halt::from(Stop::Declined))
    }
}

impl<F: Field> Solver<F> {
    /// The variables of the row that can bring the leaving one nearer to its bound.
    fn candidates(&self, row: &[Spot], below: bool) -> Result<Vec<Candidate>, Halt> {
        let mut list = Vec::new(self.alloc);
        for spot in row {
            if self.can_move(spot.at, (spot.value < 0) == below)? {
                let cost = at(&self.costs, spot.at)?;
                list.push(Candidate::of(spot.at, cost, spot.value)?)?;
            }
        }
        Ok(list)
    }

    /// How far the leaving variable still is beyond its bound once a candidate went to its other
    /// bound: none where it has none, goes too far, or that is not held.
    fn after_flip(
        &self,
        candidate: Candidate,
        far: Number<F>,
        by: i128,
    ) -> Result<Option<Number<F>>, Halt> {
        let Some(width) = at(&self.bounds, candidate.variable)?.width() else {
            return Ok(None);
        };
        let entry = Number::over(candidate.size.cast_signed(), by);
        let rest = far.less_product(entry, width);
        if rest.is_held() && rest.sign()? > 0 {
            Ok(Some(rest))
        } else {
            Ok(None)
        }
    }

    /// The variable with the shortest step that brings the leaving one to its bound, by its row over
    /// a denominator. There is none where no variable moves it the right way.
    pub(crate) fn find_entering(
        &self,
        row: &[Spot],
        by: i128,
        leaving: Leaving<F>,
        pricing: Pricing,
    ) -> Result<Option<Entering>, Halt> {
        let mut list = self.candidates(row, leaving.below)?;
        let mut far = leaving.far;
        let mut flipped = Vec::new(self.alloc);
        for _turn in 0..list.len() {
            let (place, best) = best_of::<F>(&list, pricing)?.ok_or(Stop::Declined)?;
            let variable = best.variable;
            if list.len() == 1 {
                return Ok(Some(Entering { variable, flipped }));
            }
            match self.after_flip(best, far, by)? {
                None => return Ok(Some(Entering { variable, flipped })),
                Some(rest) => {
                    far = rest;
                    flipped.push(variable)?;
                    take_out(&mut list, place)?;
                }
            }
        }
        Ok(None)
    }
}
