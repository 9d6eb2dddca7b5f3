//! What is found of an ordering cone.
use cone_rules::ConeFault;
use deriv_log::{Entry, Licence};
use overflows::SolveFault;
use src_sink::{Items, NoMemory};

/// A duality vector that fits a file, in working coordinates.
#[derive(Debug, Drop)]
pub struct Duality<F: Drop> {
    /// An interior vector of the ordering cone with last entry 1.
    pub c: Items<F>,
    /// The multipliers that combine the generators to c; none where the cone is not given by
    /// generators.
    pub weights: Items<F>,
    /// The `duality` entry of a log.
    pub entry: Entry,
}

/// Why no duality vector was found.
#[derive(Debug, Drop)]
pub enum ConeEnd {
    /// What is wrong with the cone, or with the vector that the file gives.
    Fault(ConeFault),
    /// An operation whose exact result is not held, with its licence.
    Left(Licence),
    NoMemory,
}

impl From<NoMemory> for ConeEnd {
    ghost use Rattle.std.specs.Prelude.{◌≡◌};
    ghost use Rattle.cone_dual.specs.declared.duality.ConeEnd.TheVariants as end;

    ghost from_gives = { λ _ e. e ≡ end.NoMemory };

    fn from(_e: NoMemory) -> ConeEnd {
        ConeEnd::NoMemory
    }
}

impl From<SolveFault> for ConeEnd {
    ghost use Rattle.cone_dual.specs.Ends.{IsSameEnd};

    ghost from_gives = { IsSameEnd };

    fn from(fault: SolveFault) -> ConeEnd {
        match fault {
            SolveFault::Left(licence) => ConeEnd::Left(licence),
            SolveFault::NoMemory => ConeEnd::NoMemory,
        }
    }
}
