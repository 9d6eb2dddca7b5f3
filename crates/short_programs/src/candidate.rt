//! Lengths of steps.
use exact_field::Field;
use short_basis::{Halt, Number};
use std::cmp::Ordering;
use whole_programs::{StepLength, common_divisor, quotient};

/// A variable that may enter the basis: the numerator and the denominator of its cost's magnitude,
/// and the magnitude of its entry in the row, whose denominator is left out.
#[derive(Clone, Copy)]
pub struct Candidate {
    pub variable: usize,
    gap: u128,
    under: i128,
    pub size: u128,
}

impl Candidate {
    /// A variable with its cost, where that is held, and its entry.
    pub fn of<F: Field>(variable: usize, cost: Number<F>, entry: i128) -> Result<Candidate, Halt> {
        let cost = cost.held()?;
        Ok(Candidate {
            variable,
            gap: cost.num().unsigned_abs(),
            under: cost.den(),
            size: entry.unsigned_abs(),
        })
    }

    /// The length of the step, times a number that makes the denominator of the cost a common one.
    fn length(self, common: i128) -> Option<StepLength> {
        let more = quotient(common, self.under).ok()?.unsigned_abs();
        Some(StepLength {
            gap: self.gap.checked_mul(more)?,
            size: self.size,
        })
    }

    /// The length of the step as a number.
    fn number<F: Field>(self) -> Number<F> {
        let size = Number::whole(self.size.cast_signed());
        Number::over(self.gap.cast_signed(), self.under).quotient(size)
    }

    /// How the step is to another, by whole numbers where that can be.
    fn compare<F: Field>(self, other: Candidate) -> Result<Ordering, Halt> {
        let divisor = common_divisor(self.under, other.under);
        let common = quotient(self.under, divisor)?.checked_mul(other.under);
        if let Some(common) = common
            && let Some(own) = self.length(common)
            && let Some(length) = other.length(common)
        {
            return Ok(own.compare(length));
        }
        self.number::<F>().compare(other.number())
    }

    /// Whether its step is shorter than another, and of equal ones whether its entry is greater, or
    /// its number less where that is asked for.
    pub fn is_before<F: Field>(self, other: Candidate, by_number: bool) -> Result<bool, Halt> {
        Ok(match self.compare::<F>(other)? {
            Ordering::Less => true,
            Ordering::Equal if by_number => self.variable < other.variable,
            Ordering::Equal => self.size > other.size,
            Ordering::Greater => false,
        })
    }
}
