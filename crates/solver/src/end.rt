//! What comes of solving.
use cone_dual::ConeEnd;
use cone_rules::ConeFault;
use deriv_log::{Entries, Licence};
use log_rules::Answer;
use overflows::SolveFault;
use src_sink::NoMemory;

/// A log of a problem, and the answer that it proves.
#[derive(Debug, Drop)]
pub struct Solution {
    pub entries: Entries,
    pub answer: Answer,
}

/// Why a problem has no solution here.
#[derive(Debug, Drop)]
pub enum SolveEnd {
    /// The first fault of the ordering cone.
    Cone(ConeFault),
    /// An operation whose exact result is not held, with its licence.
    Left(Licence),
    NoMemory,
}

impl From<NoMemory> for SolveEnd {
    ghost use Rattle.std.specs.Prelude.{◌≡◌};
    ghost use Rattle.solver.specs.declared.end.SolveEnd.TheVariants as end;

    ghost from_gives = { λ _ e. e ≡ end.NoMemory };

    fn from(_e: NoMemory) -> SolveEnd {
        SolveEnd::NoMemory
    }
}

impl From<SolveFault> for SolveEnd {
    ghost use Rattle.solver.specs.Ends.{IsSameFault};

    ghost from_gives = { IsSameFault };

    fn from(fault: SolveFault) -> SolveEnd {
        match fault {
            SolveFault::Left(licence) => SolveEnd::Left(licence),
            SolveFault::NoMemory => SolveEnd::NoMemory,
        }
    }
}

impl From<ConeEnd> for SolveEnd {
    ghost use Rattle.solver.specs.Ends.{IsSameConeEnd};

    ghost from_gives = { IsSameConeEnd };

    fn from(end: ConeEnd) -> SolveEnd {
        match end {
            ConeEnd::Fault(fault) => SolveEnd::Cone(fault),
            ConeEnd::Left(licence) => SolveEnd::Left(licence),
            ConeEnd::NoMemory => SolveEnd::NoMemory,
        }
    }
}
