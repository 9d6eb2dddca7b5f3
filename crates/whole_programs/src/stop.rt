//! Why a solver stops.
use exact_field::Left;
use src_sink::NoMemory;
use std::alloc::{AllocError, AllocFailed};

/// Why a solver stops.
#[derive(Clone, Copy, Debug)]
pub enum Stop {
    /// It declines: a number is too long, there are too many steps, or there is no optimum.
    Declined,
    NoMemory,
}

impl From<NoMemory> for Stop {
    fn from(_e: NoMemory) -> Stop {
        Stop::NoMemory
    }
}

impl From<AllocError> for Stop {
    fn from(_e: AllocError) -> Stop {
        Stop::NoMemory
    }
}

impl<T: Drop> From<AllocFailed<T>> for Stop {
    fn from(_e: AllocFailed<T>) -> Stop {
        Stop::NoMemory
    }
}

impl<F: Drop> From<Left<F>> for Stop {
    fn from(_e: Left<F>) -> Stop {
        Stop::Declined
    }
}
