//! The rows that are tight at a generator at which a further row is negative.
ghost use Rattle.std.specs.Prelude.{◌≡◌, ◌≤◌, All, IfOk, length};
ghost use Rattle.exact_field.specs.Rational.{zero_ℚ, ◌<ℚ◌};
ghost use Rattle.incid_sets.specs.Marks.{ContainsAll};
ghost use Rattle.double_descr.specs.Making.{Addition, AreValuesAt, Reaches};
ghost use Rattle.double_descr.specs.State.{HasTightSet};

use crate::generator::Generator;
use exact_field::{Field, is_negative};
use incid_sets::Marks;
use src_sink::NoMemory;
use std::alloc::Global;

/// Gives the set the rows that are tight at a generator, if the further row is negative there.
fn take_tight<F: Field>(reach: &mut Marks, generator: &Generator<F>, at: F)
    requires { length generator.now.tight ≤ length reach.old }
    ensures bound { length reach.new ≡ length reach.old }
    ensures keeps { ContainsAll reach.new reach.old }
    ensures takes { F.value at <ℚ zero_ℚ → ContainsAll reach.new generator.now.tight }
{
    if is_negative(at) {
        reach.unite(&generator.tight);
    }
}

/// The rows that are tight at one of the generators at which the row of an addition is negative,
/// from its values. The cost is that of the words of their sets.
pub fn reach_of<F: Field>(
    alloc: Global,
    count: u32,
    generators: &[Generator<F>],
    values: &[F],
) -> Result<Marks, NoMemory>
    ghost addition: { Addition }
    requires count { count ≡ length addition.rows }
    requires values { AreValuesAt F.value addition.row generators.now values.now }
    requires tight { All (HasTightSet F.value addition.rows) generators.now }
    requires same { length values.now ≡ length generators.now }
    ensures bound { IfOk result (λ reach. length reach ≡ count) }
    ensures reaches { IfOk result (Reaches F.value addition generators.now) }
{
    let mut reach = Marks::new(alloc, count)?;
    for i in 0..generators.len() {
        take_tight(&mut reach, &generators[i], values[i]);
    }
    Ok(reach)
}
