//! Which variable leaves the basis.
use crate::solver::Solver;
use exact_field::Field;
use short_basis::{Halt, Multiple, Number, Shared, sign_of_sum};
use short_programs::Pricing;
use std::cmp::Ordering;
use whole_programs::{at, negative};

/// A slot whose variable is beyond one of its bounds.
#[derive(Clone, Copy)]
pub(crate) struct Leaving<F> {
    pub(crate) slot: usize,
    /// Whether it is below the one from below.
    pub(crate) below: bool,
    /// How far, which may not be held.
    pub(crate) far: Number<F>,
}

impl<F: Field> Solver<F> {
    /// A slot whose variable is beyond a bound, if there is one.
    pub(crate) fn find_leaving(&mut self, pricing: Pricing) -> Result<Option<Leaving<F>>, Halt> {
        let mut best: Option<Leaving<F>> = None;
        let mut unknown = false;
        for (slot, value) in self.values.iter().enumerate() {
            if !value.is_held() {
                unknown = unknown || self.has_bound(slot)?;
                continue;
            }
            if let Some(next) = self.violation(slot, *value)?
                && self.leaves_before(pricing, next, best)?
            {
                best = Some(next);
            }
        }
        if best.is_none() && unknown {
            return self.find_by_digits();
        }
        Ok(best)
    }

    /// Whether the variable of a slot has a bound.
    fn has_bound(&self, slot: usize) -> Result<bool, Halt> {
        Ok(at(&self.bounds, at(&self.slots, slot)?)?.is_some())
    }

    /// By how much the variable of a slot, whose value is held, is beyond a bound.
    fn violation(&self, slot: usize, value: Number<F>) -> Result<Option<Leaving<F>>, Halt> {
        let bounds = at(&self.bounds, at(&self.slots, slot)?)?;
        let below = match bounds.side_of(value)? {
            Ordering::Less => true,
            Ordering::Equal => return Ok(None),
            Ordering::Greater => false,
        };
        let bound = bounds.bound(below).ok_or(Halt::Long)?;
        Ok(Some(Leaving {
            slot,
            below,
            far: bound.less(value).magnitude(),
        }))
    }

    /// Whether a slot is better than the best one.
    fn leaves_before(
        &self,
        pricing: Pricing,
        next: Leaving<F>,
        best: Option<Leaving<F>>,
    ) -> Result<bool, Halt> {
        let Some(best) = best else {
            return Ok(true);
        };
        let variable = at(&self.slots, next.slot)?;
        let other = at(&self.slots, best.slot)?;
        match pricing {
            Pricing::Farthest => is_farther(next.far, best.far),
            Pricing::First => Ok(variable < other),
            Pricing::Shortest => {
                Ok(at(&self.values, next.slot)?.bits() < at(&self.values, best.slot)?.bits())
            }
            Pricing::Sparsest => Ok(self.entries(variable)? < self.entries(other)?),
        }
    }

    /// A slot whose value is not held and beyond a bound by its digits.
    fn find_by_digits(&mut self) -> Result<Option<Leaving<F>>, Halt> {
        if self.basis.steps() != 0 {
            self.refresh(true)?;
        }
        for (slot, value) in self.values.iter().enumerate() {
            if value.is_held() || !self.has_bound(slot)? {
                continue;
            }
            if let Some(below) = self.side_by_digits(slot)? {
                return Ok(Some(Leaving {
                    slot,
                    below,
                    far: Number::left(),
                }));
            }
        }
        Ok(None)
    }

    /// Whether a value is below a bound or above one, by the digits of its sum.
    fn side_by_digits(&self, slot: usize) -> Result<Option<bool>, Halt> {
        let line = self.inverse_row(slot)?;
        let bounds = at(&self.bounds, at(&self.slots, slot)?)?;
        for below in [true, false] {
            if let Some(bound) = bounds.bound(below) {
                let wanted = if below { -1 } else { 1 };
                if self.sign_less(&line, bound)? == wanted {
                    return Ok(Some(below));
                }
            }
        }
        Ok(None)
    }

    /// The sign of the product of a row of the inverse with the right sides, less a bound.
    fn sign_less(&self, line: &Shared, bound: Number<F>) -> Result<i8, Halt> {
        let mut list = Vec::new(self.alloc);
        list.push(Multiple {
            by: negative(line.by)?,
            value: bound.held()?,
        })?;
        for (by, right) in line.numbers.iter().zip(&self.right) {
            if *by != 0 && !right.is_zero() {
                list.push(Multiple {
                    by: *by,
                    value: right.held()?,
                })?;
            }
        }
        sign_of_sum(self.alloc, &list)
    }
}

/// Whether a distance is greater than another. One that is not held is less than one that is.
fn is_farther<F: Field>(far: Number<F>, other: Number<F>) -> Result<bool, Halt> {
    if !far.is_held() {
        return Ok(false);
    }
    Ok(!other.is_held() || far.compare(other)? == Ordering::Greater)
}
