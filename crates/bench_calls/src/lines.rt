//! Lists of whole numbers as lists of fractions.

ghost use Rattle.std.specs.Prelude.{◌≡◌, IfSome, map};
ghost use Rattle.exact_field.specs.Rational.{whole};

use exact_field::Field;
use frac128::Frac;
use src_sink::Items;
use std::alloc::Global;

/// Whole numbers as fractions.
pub fn line_of(alloc: Global, line: &[i64]) -> Option<Items<Frac>>
    ensures { IfSome result (λ row. row ≡ map whole line.now) }
{
    let mut row = Items::new(alloc);
    for entry in line {
        let value = Frac::whole(*entry)?;
        row.push(value).ok()?;
    }
    Some(row)
}
