//! Bounds of variables as numbers.
use exact_field::Field;
use short_basis::{Halt, Number};
use std::alloc::Global;
use std::cmp::Ordering;
use whole_programs::{Limits, Place, Ratio};

/// The bounds of a variable.
#[derive(Clone, Copy, Debug)]
pub struct Bounds<F> {
    pub low: Option<Number<F>>,
    pub high: Option<Number<F>>,
}

/// A bound as a number, which may not be held.
fn number_of<F: Field>(limit: Option<Ratio>) -> Option<Number<F>> {
    let ratio = limit?;
    match ratio.number() {
        Some(x) => Some(Number::of(x)),
        None => Some(Number::left()),
    }
}

/// Whether a value is to a bound as is wanted. To one that is not there it is not.
fn is_beyond<F: Field>(
    value: Number<F>,
    bound: Option<Number<F>>,
    wanted: Ordering,
) -> Result<bool, Halt> {
    match bound {
        None => Ok(false),
        Some(bound) => Ok(value.compare(bound)? == wanted),
    }
}

impl<F: Field> Bounds<F> {
    /// None.
    pub fn open() -> Bounds<F> {
        Bounds {
            low: None,
            high: None,
        }
    }

    pub fn of(limits: Limits) -> Bounds<F> {
        Bounds {
            low: number_of(limits.low),
            high: number_of(limits.high),
        }
    }

    /// The bound from below, or the one from above.
    pub fn bound(self, below: bool) -> Option<Number<F>> {
        if below { self.low } else { self.high }
    }

    /// Whether there is one.
    pub fn is_some(self) -> bool {
        self.low.is_some() || self.high.is_some()
    }

    /// How far they are from each other.
    pub fn width(self) -> Option<Number<F>> {
        match (self.low, self.high) {
            (Some(low), Some(high)) => Some(high.less(low)),
            _ => None,
        }
    }

    /// Those of the program from whose optimum the costs' signs are seen to be right: a bound that
    /// is there is 0, and one that is not -1 or 1.
    pub fn box_of(self) -> Bounds<F> {
        let one = Number::one();
        Bounds {
            low: Some(self.low.map_or(one.negative(), |_low| Number::zero())),
            high: Some(self.high.map_or(one, |_high| Number::zero())),
        }
    }

    /// Whether the one from below is above the other.
    pub fn are_crossed(self) -> bool {
        match self.width().map(Number::sign) {
            Some(Ok(sign)) => sign < 0,
            _ => false,
        }
    }

    /// Whether both are one number.
    fn are_equal(self) -> bool {
        self.width().is_some_and(|width| width.is_zero())
    }

    /// Whether a variable with these bounds, which stands here, can move upwards, or downwards.
    pub fn can_move(self, place: Place, upwards: bool) -> bool {
        match place {
            Place::Basic => false,
            Place::Free => true,
            Place::Low => upwards && !self.are_equal(),
            Place::High => !upwards && !self.are_equal(),
        }
    }

    /// How a value is to the bounds: below, within or above.
    pub fn side_of(self, value: Number<F>) -> Result<Ordering, Halt> {
        if is_beyond(value, self.low, Ordering::Less)? {
            return Ok(Ordering::Less);
        }
        if is_beyond(value, self.high, Ordering::Greater)? {
            return Ok(Ordering::Greater);
        }
        Ok(Ordering::Equal)
    }
}

/// The bounds of all variables.
pub fn bounds_of<F: Field>(alloc: Global, limits: &[Limits]) -> Result<Vec<Bounds<F>>, Halt> {
    let mut list = Vec::new(alloc);
    for limits in limits {
        list.push(Bounds::of(*limits))?;
    }
    Ok(list)
}
