//! Why a problem is not printed.
ghost use Rattle.std.specs.Prelude.{◌≡◌};
ghost use Rattle.vlp_printer.specs.declared.fault.PrintFault.TheVariants.{NoMemory};

use frac128::Frac;
use src_sink::NoMemory as WantOfMemory;
use std::alloc::AllocError;
use thiserror::Error;

/// Why `print_vlp` gave no text.
#[derive(Clone, Copy, Debug, PartialEq, Eq, Error)]
pub enum PrintFault {
    /// A number of the problem that no word of a file has as its value.
    #[error("a number has no decimal form of at most 36 digits")]
    NotDecimal(Frac),
    #[error("out of memory")]
    NoMemory,
}

impl From<WantOfMemory> for PrintFault {
    ghost from_gives = { λ _ e. e ≡ NoMemory };

    fn from(_e: WantOfMemory) -> PrintFault {
        PrintFault::NoMemory
    }
}
