//! What an addition changes, and why a double description is given up.

use exact_field::Left;
use lin_rows::RowFault;
use src_sink::{Items, NoMemory};
use std::alloc::AllocError;

/// Two generators, by number: at the new row the one is positive and the other negative.
#[derive(Clone, Copy, Debug, PartialEq, Eq)]
pub struct Pair {
    /// The generator at which the row is positive.
    pub plus: u32,
    /// The generator at which it is negative.
    pub minus: u32,
}

/// What an addition changed.
#[derive(Debug, Drop)]
pub struct Change {
    /// The generators that are live no more, rising.
    pub dropped: Items<u32>,
    /// The opposite pairs that no third live generator covered, rising by plus, then minus. Each
    /// gives a new generator.
    pub pairs: Items<Pair>,
    /// The number of the first new generator.
    pub first_new: u32,
}

/// Why a double description was given up.
#[derive(Debug, Drop)]
pub enum DdFault<F: Drop> {
    /// A step of a start whose result is not held: of the elimination, or of the norming of a
    /// generator. Of a norming the basis is empty, the row 0, the column the place of the entry,
    /// from 1, and the step 1.
    Elim(RowFault<F>),
    /// A step of an addition whose result is not held: of the value of the generator `first` at the
    /// new row, and then `second` is 0, or of the pair of both.
    Left {
        /// The generator, or that of the pair at which the row is positive.
        first: u32,
        /// The generator of the pair at which the row is negative.
        second: u32,
        /// The number of the step, from 1, in this value or pair.
        step: u64,
        /// The operation, with its operands.
        left: Left<F>,
    },
    /// Want of memory.
    NoMemory,
}

impl<F: Drop> From<NoMemory> for DdFault<F> {
    ghost use Rattle.std.specs.Prelude.{◌≡◌};
    ghost use Rattle.double_descr.specs.declared.fault.DdFault.TheVariants.{NoMemory};

    ghost from_gives = { λ _ e. e ≡ NoMemory };

    fn from(_e: NoMemory) -> DdFault<F> {
        DdFault::NoMemory
    }
}

impl<F: Drop> From<AllocError> for DdFault<F> {
    ghost use Rattle.std.specs.Prelude.{◌≡◌};
    ghost use Rattle.double_descr.specs.declared.fault.DdFault.TheVariants.{NoMemory};

    ghost from_gives = { λ _ e. e ≡ NoMemory };

    fn from(_e: AllocError) -> DdFault<F> {
        DdFault::NoMemory
    }
}

impl<F: Drop> From<RowFault<F>> for DdFault<F> {
    ghost use Rattle.std.specs.Prelude.{◌≡◌};
    ghost use Rattle.double_descr.specs.Faults.{fault_of};

    ghost from_gives = { λ r e. e ≡ fault_of r };

    fn from(fault: RowFault<F>) -> DdFault<F> {
        match fault {
            RowFault::NoMemory => DdFault::NoMemory,
            left => DdFault::Elim(left),
        }
    }
}
