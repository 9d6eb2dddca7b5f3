//! Licences of what eliminations and sums of products tell of their overflows.
ghost use Rattle.std.specs.Prelude.{◌≡◌, ◌+◌, ℕ, List, length};
ghost use Rattle.exact_field.specs.Rational.{ℚ};
ghost use Rattle.frac128.specs.Held.{is_held};
ghost use Rattle.double_descr.specs.Starting.{IsStartFault};
ghost use Rattle.double_descr.specs.declared.fault.DdFault.TheVariants.{Elim};
ghost use Rattle.lin_rows.specs.Eliminate.{IsElimFault};
ghost use Rattle.overflows.specs.Faults.{IsTermAt};
ghost use Rattle.rep_convert.specs.Licensed.{AreMultiplied, AreShort, IsConvLeft, IsElimTable};
ghost use Rattle.rep_convert.specs.Lines.{width_without};
ghost use Rattle.rep_convert.specs.Started.{HasHeldOperand};
ghost use Rattle.rep_text.specs.declared.rep.Rep.{Rep};
ghost use Rattle.tableaux.specs.Table.{Table};

use crate::fault::ConvFault;
use exact_field::Field;
use frac128::Frac;
use lin_rows::{RowFault, Rows};
use overflows::{SumFault, elimination_fault, term_fault};
use src_sink::Items;
use std::alloc::Global;

/// The first operand of a fault is held: it is read once, and so is in the range of its type.
fn operand_is_held(fault: &RowFault<Frac>)
    ensures { HasHeldOperand fault.now }
{
    if let RowFault::Left { left, .. } = fault {
        let _num = left.a.num();
    }
}

/// The fault of an elimination of rows of a text.
pub(crate) fn row_left(alloc: Global, rows: &Rows<Frac>, fault: RowFault<Frac>) -> ConvFault
    ensures elim { (rep : Rep) (t : Table) (columns : ℕ) → IsElimTable rep rows.now.list t columns
        → IsElimFault (λ q. q) is_held columns t fault → IsConvLeft is_held rep result }
    ensures start { (rep : Rep) (lines : List (List ℚ)) → AreShort rep rows.now.list lines
        → length rows.now.list ≡ width_without rep lines
        → IsStartFault (λ q. q) is_held (width_without rep lines) rows.now.list (Elim fault)
        → IsConvLeft is_held rep result }
{
    operand_is_held(&fault);
    let told = elimination_fault(alloc, rows, fault, Items::new(alloc));
    ConvFault::from(told)
}

/// The fault of a sum of products.
pub(crate) fn term_left(alloc: Global, fault: SumFault<Frac>) -> ConvFault
    ensures { (rep : Rep) (row v : List ℚ) → AreMultiplied rep row v
        → IsTermAt (λ q. q) is_held row v fault → IsConvLeft is_held rep result }
{
    let told = term_fault(alloc, fault, Items::new(alloc));
    ConvFault::from(told)
}
