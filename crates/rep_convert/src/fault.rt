//! What a conversion gives, and why it is given up.
use deriv_log::Licence;
use overflows::SolveFault;
use rep_text::{ConvLog, Rep};
use src_sink::NoMemory;

/// The other representation of a polyhedron, with the log of the conversion.
#[derive(Debug, Drop)]
pub struct Converted {
    pub rep: Rep,
    pub log: ConvLog,
}

/// Why a conversion was given up.
#[derive(Debug, Drop)]
pub enum ConvFault {
    /// An operation whose exact result is not held, with its licence.
    Left(Licence),
    NoMemory,
}

impl From<NoMemory> for ConvFault {
    ghost use Rattle.std.specs.Prelude.{◌≡◌};
    ghost use Rattle.rep_convert.specs.declared.fault.ConvFault.TheVariants as fault;

    ghost from_gives = { λ _ e. e ≡ fault.NoMemory };

    fn from(_e: NoMemory) -> ConvFault {
        ConvFault::NoMemory
    }
}

impl From<SolveFault> for ConvFault {
    ghost use Rattle.rep_convert.specs.Licensed.{IsFaultOf};

    ghost from_gives = { IsFaultOf };

    fn from(fault: SolveFault) -> ConvFault {
        match fault {
            SolveFault::Left(licence) => ConvFault::Left(licence),
            SolveFault::NoMemory => ConvFault::NoMemory,
        }
    }
}
