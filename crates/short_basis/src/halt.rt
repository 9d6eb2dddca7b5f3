//! Why a calculation stops.
use exact_field::Left;
use src_sink::NoMemory;
use std::alloc::{AllocError, AllocFailed};
use whole_programs::Stop;

/// Why a calculation stops.
#[derive(Clone, Copy, Debug, PartialEq, Eq)]
pub enum Halt {
    /// A number that is needed is not held.
    Long,
    /// Columns are dependent.
    Singular,
    NoMemory,
}

impl From<NoMemory> for Halt {
    fn from(_e: NoMemory) -> Halt {
        Halt::NoMemory
    }
}

impl From<AllocError> for Halt {
    fn from(_e: AllocError) -> Halt {
        Halt::NoMemory
    }
}

impl<T: Drop> From<AllocFailed<T>> for Halt {
    fn from(_e: AllocFailed<T>) -> Halt {
        Halt::NoMemory
    }
}

impl<F: Drop> From<Left<F>> for Halt {
    fn from(_e: Left<F>) -> Halt {
        Halt::Long
    }
}

impl From<Stop> for Halt {
    fn from(e: Stop) -> Halt {
        match e {
            Stop::Declined => Halt::Long,
            Stop::NoMemory => Halt::NoMemory,
        }
    }
}

impl From<Halt> for Stop {
    fn from(e: Halt) -> Stop {
        match e {
            Halt::Long | Halt::Singular => Stop::Declined,
            Halt::NoMemory => Stop::NoMemory,
        }
    }
}
