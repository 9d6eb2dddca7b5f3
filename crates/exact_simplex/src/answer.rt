//! What the solution of a linear program answers.

ghost use Rattle.exact_simplex.specs.Refused.{IsSameFault};

use exact_field::Left;
use lin_rows::RowFault;
use src_sink::{Items, NoMemory};

/// How a linear program ends. A basis names for each equation its column: from 1 those of the
/// unknowns, and after them one artificial column for each equation.
#[derive(Debug, Drop)]
pub enum LpEnd<F: Drop> {
    /// A solution of the greatest cost, and the multipliers of the equations that show it.
    Optimal {
        /// A value for each unknown.
        x: Items<F>,
        /// A multiplier for each equation.
        dual: Items<F>,
        /// The basis at which both are read off.
        basis: Items<u32>,
    },
    /// The equations have no solution without a negative entry (Farkas).
    Infeasible {
        /// A multiplier for each equation.
        farkas: Items<F>,
        /// The basis at which it is read off.
        basis: Items<u32>,
    },
    /// The cost grows without end.
    Unbounded {
        /// A solution from which the cost grows.
        x: Items<F>,
        /// The direction in which the cost grows.
        ray: Items<F>,
        /// The basis at which both are read off.
        basis: Items<u32>,
    },
}

/// Why the solution of a linear program was given up.
#[derive(Debug, Drop)]
pub enum LpFault<F: Drop> {
    /// An exact value that is not held.
    Left {
        /// The basis of the dictionary in which the pivot is: for each row its column, and 0 for
        /// none.
        basis: Items<u32>,
        /// The row of the pivot, from 1, or the first cost row, after the equations, where
        /// multipliers are read off it.
        row: u32,
        /// The column of the pivot, from 1.
        col: u32,
        /// 1 is the quotient of an entry of the pivot row by the pivot, 2 a product, and 3 a
        /// difference.
        step: u8,
        /// The operation, with its operands.
        left: Left<F>,
    },
    /// Want of memory.
    NoMemory,
}

impl<F: Drop> From<NoMemory> for LpFault<F> {
    ghost use Rattle.std.specs.Prelude.{◌≡◌};
    ghost use Rattle.exact_simplex.specs.declared.answer.LpFault.TheVariants.{NoMemory};

    ghost from_gives = { λ _ e. e ≡ NoMemory };

    fn from(_e: NoMemory) -> LpFault<F> {
        LpFault::NoMemory
    }
}

/// The fault of an elimination as that of a linear program.
pub fn lp_fault<F: Drop>(fault: RowFault<F>) -> LpFault<F>
    ensures { IsSameFault fault result }
{
    match fault {
        RowFault::Left {
            basis,
            row,
            col,
            step,
            left,
        } => LpFault::Left {
            basis,
            row,
            col,
            step,
            left,
        },
        RowFault::NoMemory => LpFault::NoMemory,
    }
}
