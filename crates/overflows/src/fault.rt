//! Why a calculation was given up.
use deriv_log::{Entries, Licence};
use exact_field::Left;
use src_sink::NoMemory;

/// Why a calculation over a problem was given up.
#[derive(Debug, Drop)]
pub enum SolveFault {
    /// An operation whose exact result is not held, with its licence.
    Left(Licence),
    NoMemory,
}

impl From<NoMemory> for SolveFault {
    ghost use Rattle.std.specs.Prelude.{◌≡◌};
    ghost use Rattle.overflows.specs.declared.fault.SolveFault.TheVariants as fault;

    ghost from_gives = { λ _ e. e ≡ fault.NoMemory };

    fn from(_e: NoMemory) -> SolveFault {
        SolveFault::NoMemory
    }
}

impl SolveFault {
    ghost use Rattle.std.specs.Prelude.{◌≡◌, Bool, []};
    ghost use Rattle.exact_field.specs.Rational.{ℚ};
    ghost use Rattle.overflows.specs.Settings.{Setting};
    ghost use Rattle.overflows.specs.Faults.{Overflows, with_trail};

    /// The fault with this trail in place of its own.
    pub fn with_trail(self, trail: Entries) -> SolveFault
        ensures told { result ≡ with_trail self trail }
        ensures licensed { (holds : ℚ → Bool) (s : Setting) → Overflows holds s [] self
            → Overflows holds s trail result }
    {
        match self {
            SolveFault::Left(licence) => SolveFault::Left(Licence {
                place: licence.place,
                left: licence.left,
                trail,
            }),
            SolveFault::NoMemory => SolveFault::NoMemory,
        }
    }
}

/// A product or a sum of a sum of products whose exact result is not held.
#[derive(Clone, Copy, Debug)]
pub struct SumFault<F> {
    /// The place in both lists, from 1.
    pub place: u32,
    /// The operation, with its operands.
    pub left: Left<F>,
}
